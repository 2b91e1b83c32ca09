// The kinds of lines, which second/cases.c describes.

#[derive(Clone, Copy)]
pub(crate) enum Kind {
    FilledTwo,
    FilledThree,
    UnmetTwo,
    UnmetThree,
    FrameBuilt,
    FrameNotBuilt,
    FrameRead,
    SheetWritten,
    SheetRead,
    SheetsWalked,
    PageTaken,
    PagePut,
    ClockHandedOut,
    ClockTakenBack,
    FramePrinted,
    RefusalPrinted,
    FrameReadBack,
}

// How many kinds there are: the size of `ALL` and of a tally, fixed memory.
pub(crate) const KINDS: usize = 17;

// In the order in which they are printed.
pub(crate) static ALL: [Kind; KINDS] = [
    Kind::FilledTwo,
    Kind::FilledThree,
    Kind::UnmetTwo,
    Kind::UnmetThree,
    Kind::FrameBuilt,
    Kind::FrameNotBuilt,
    Kind::FrameRead,
    Kind::SheetWritten,
    Kind::SheetRead,
    Kind::SheetsWalked,
    Kind::PageTaken,
    Kind::PagePut,
    Kind::ClockHandedOut,
    Kind::ClockTakenBack,
    Kind::FramePrinted,
    Kind::RefusalPrinted,
    Kind::FrameReadBack,
];

impl Kind {
    // The three characters that lines of this kind begin with, and what its cases are.
    pub(crate) fn row(self) -> &'static [u8; 26] {
        match self {
            Kind::FilledTwo => b"F2 blocks filled          ",
            Kind::FilledThree => b"F3 blocks filled          ",
            Kind::UnmetTwo => b"U2 first unmet equations  ",
            Kind::UnmetThree => b"U3 first unmet equations  ",
            Kind::FrameBuilt => b"FB frames built           ",
            Kind::FrameNotBuilt => b"FW frames not built       ",
            Kind::FrameRead => b"FR frames read            ",
            Kind::SheetWritten => b"SW sheets written         ",
            Kind::SheetRead => b"SR sheets read            ",
            Kind::SheetsWalked => b"SK walks over sheets      ",
            Kind::PageTaken => b"PT pages taken            ",
            Kind::PagePut => b"PP pages put              ",
            Kind::ClockHandedOut => b"CH clock terms handed out ",
            Kind::ClockTakenBack => b"CT clock terms taken back ",
            Kind::FramePrinted => b"BF frames printed         ",
            Kind::RefusalPrinted => b"BN refusals printed       ",
            Kind::FrameReadBack => b"RB frames read back       ",
        }
    }
}

// The kind of the next line; none where there is no line, or one of no kind.
pub(crate) fn next_kind() -> Option<Kind> {
    let mut word = [0u8; 3];
    io::read_full(0, &mut word);
    ALL.iter()
        .copied()
        .find(|kind| kind.row().starts_with(&word))
}
