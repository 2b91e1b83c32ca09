// The pages of subframe 3: 250 bits taken as a record, and put back.
ghost use Rattle.std.specs.Prelude.{◌≡◌, ◌++◌, ◌+◌, ◌≤◌, ◌<◌, length, drop};
ghost use Rattle.words.specs.Bits.{bits_of};
ghost use Rattle.words.specs.Refusal.{Done};
ghost use Rattle.fields.specs.Table.{bit_count};
ghost use Rattle.fields.specs.Pages.{PAGE_BITS, HEAD_BITS, BODY_BITS, PAGE_COUNTS, prn_in, number_in, kind_of, table_of, page_fields, counts_answer3, range_answer, page_answer, record_of, page_taken, is_own, fields_answer3, page_from, used_counts, used_bits, put_page_answer, put_page_bytes};

use super::table::{Table, bit_count, field_count};
use words::bits::{judge_bits, put_number, take_number};
use words::refusal::{Refusal, Rule};

// The page bits: PRN and page number before the body, and the body.
const PAGE_BITS: usize = 250;

const HEAD_BITS: usize = 14;

// The last number of a page.
const LAST_PAGE: u8 = 63;

const BODY_BITS: usize = 236;

// The page number's first bit, from 1.
const NUMBER_BIT: usize = 9;

// Where each count of a page 1 record stands.
pub const A0: usize = 0;

pub const A1: usize = 1;

pub const A2: usize = 2;

pub const LEAP_SECONDS: usize = 3;

pub const TOT: usize = 4;

pub const WN_OT: usize = 5;

pub const WN_LSF: usize = 6;

pub const DN: usize = 7;

pub const FUTURE_LEAP_SECONDS: usize = 8;

pub const ALPHA0: usize = 9;

pub const ALPHA1: usize = 10;

pub const ALPHA2: usize = 11;

pub const ALPHA3: usize = 12;

pub const BETA0: usize = 13;

pub const BETA1: usize = 14;

pub const BETA2: usize = 15;

pub const BETA3: usize = 16;

// Where the counts of a page 6 record stand: the text page, and the first of 29 bytes of text.
pub const TEXT_PAGE: usize = 0;

pub const TEXT: usize = 1;

// What kind of record a page is: page 1, page 6, or bare bits.
#[derive(Clone, Copy, PartialEq, Eq, Debug)]
pub enum Kind {
    One,
    Six,
    Bare,
}

// A page: the counts of its fields, and the bits behind them that are carried as bits. A page 1 record uses 17 counts and 74 bits, a
// page 6 record 30 counts, bare bits all 236 bits; what a kind does not use is zero when it is taken, and not looked at when it is put.
// Public: the counts and bits have room for either kind, and a kind uses a part.
#[derive(Clone, Copy, PartialEq, Eq)]
pub struct Page {
    pub prn: u8,
    pub number: u8,
    pub kind: Kind,
    pub counts: [i64; 30],
    pub bits: [u8; 236],
}

// The kind of record that a page number asks for.
// No `From<u8>`: it would be public, for a match that only this file makes.
fn kind_of(number: u8) -> Kind
    ensures { result ≡ kind_of number }
{
    match number {
        1 => Kind::One,
        6 => Kind::Six,
        _ => Kind::Bare,
    }
}

impl Kind {
    // The table of its fields.
    fn table(self) -> Table
        ensures { result ≡ table_of self }
    {
        match self {
            Kind::One => Table::Page1,
            Kind::Six => Table::Page6,
            Kind::Bare => Table::NoFields,
        }
    }

    // How many counts its records use; a record has room for them.
    fn field_count(self) -> usize
        ensures { (result ≡ length (page_fields self)) × (result ≤ PAGE_COUNTS) }
    {
        field_count(self.table())
    }

    // How many bits those take; the body has room for them.
    fn bit_count(self) -> usize
        ensures { (result ≡ bit_count (page_fields self)) × (result ≤ BODY_BITS) }
    {
        bit_count(self.table())
    }

    // Refused 9 at the first bit, in the page, of the first field whose count is out of range.
    fn judge(self, counts: &[i64]) -> Result<(), Refusal>
        requires { length counts.now ≡ length (page_fields self) }
        ensures { result ≡ counts_answer3 (page_fields self) counts.now }
    {
        self.table().judge(counts, HEAD_BITS, Rule::Field3)
    }

    // The page number is the record's own; pages carried as bits have those up to 63 but 1 and 6.
    fn is_own(self, number: u8) -> bool
        ensures { result ≡ is_own self number }
    {
        match self {
            Kind::One => number == 1,
            Kind::Six => number == 6,
            Kind::Bare => number <= LAST_PAGE && !matches!(number, 1 | 6),
        }
    }
}

// PRN, bits 1 to 8.
// This and `number_in` are each one call with the document's numbers.
fn prn_in(bits: &[u8]) -> u8
    ensures { result ≡ prn_in bits.now }
{
    take_number(bits, 0, 8) as u8
}

// The page number, bits 9 to 14.
fn number_in(bits: &[u8]) -> u8
    ensures { result ≡ number_in bits.now }
{
    take_number(bits, 8, 6) as u8
}

// ---- taking

// The counts of a page's fields, and zeros behind them.
// Asked for: 250 bits, and the kind beside them. Four functions read 250 bits and two write them, so it
// would take two types, for six lines.
fn counts_of(kind: Kind, bits: &[u8]) -> [i64; 30]
    requires { length bits.now ≡ PAGE_BITS }
    ensures { result ≡ (record_of kind bits.now).counts }
{
    let mut counts = [0; 30];
    let used = &mut counts[..kind.field_count()];
    kind.table().read(bits, HEAD_BITS, used);
    counts
}

// The bits that a page carries as bits, and zeros behind them.
fn carried_of(kind: Kind, bits: &[u8]) -> [u8; 236]
    requires { length bits.now ≡ PAGE_BITS }
    ensures { result ≡ (record_of kind bits.now).bits }
{
    let end = HEAD_BITS + kind.bit_count();
    let mut carried = [0; 236];
    carried[..PAGE_BITS - end].copy_from_slice(&bits[end..]);
    carried
}

// The record of page bits.
fn record_of(kind: Kind, bits: &[u8]) -> Page
    requires { length bits.now ≡ PAGE_BITS }
    ensures { result ≡ record_of kind bits.now }
{
    Page {
        prn: prn_in(bits),
        number: number_in(bits),
        kind,
        counts: counts_of(kind, bits),
        bits: carried_of(kind, bits),
    }
}

// Refused 9 at the first bit of the first field of 250 page bits that is out of its range.
fn judge_fields(bits: &[u8]) -> Result<(), Refusal>
    requires { length bits.now ≡ PAGE_BITS }
    ensures { result ≡ range_answer bits.now }
{
    let kind = kind_of(number_in(bits));
    let counts = counts_of(kind, bits);
    kind.judge(&counts[..kind.field_count()])
}

// Judges 250 page bits: refused 1, 2, then 9 at the first bit of the first field out of its range.
pub fn judge_page(bits: &[u8]) -> Result<(), Refusal>
    ensures { result ≡ page_answer bits.now }
{
    if bits.len() != PAGE_BITS {
        return Err(Rule::Length.at(0));
    }
    judge_bits(bits)?;
    judge_fields(bits)
}

// Takes 250 page bits as a record; refused as they are judged.
pub fn take_page(bits: &[u8]) -> Result<Page, Refusal>
    ensures { result ≡ page_taken bits.now }
{
    judge_page(bits)?;
    Ok(record_of(kind_of(number_in(bits)), bits))
}

// ---- putting

impl Page {
    // The counts that its kind uses.
    fn used_counts(&self) -> &[i64]
        ensures { (result.now ≡ used_counts self.now) × (length result.now ≡ length (page_fields self.now.kind)) }
    {
        &self.counts[..self.kind.field_count()]
    }

    // The bits that its kind uses.
    fn used_bits(&self) -> &[u8]
        ensures { (result.now ≡ used_bits self.now)
            × (HEAD_BITS + bit_count (page_fields self.now.kind) + length result.now ≡ PAGE_BITS) }
    {
        &self.bits[..BODY_BITS - self.kind.bit_count()]
    }
}

// Judges the page number and the counts of a record: 9.
fn judge_record(page: &Page) -> Result<(), Refusal>
    ensures { result ≡ fields_answer3 page.now.kind page.now.number (used_counts page.now) }
{
    if !page.kind.is_own(page.number) {
        return Err(Rule::Field3.at(NUMBER_BIT));
    }
    page.kind.judge(page.used_counts())
}

// PRN and a page number of six bits, before the body.
fn write_head(prn: u8, number: u8, bits: &mut [u8])
    requires { (number < 64) × (length bits.old ≡ PAGE_BITS) }
    ensures { bits.new ≡ bits_of 8 prn ++ (bits_of 6 number ++ drop HEAD_BITS bits.old) }
{
    put_number(bits, 0, 8, u64::from(prn)).unwrap();
    put_number(bits, 8, 6, u64::from(number)).unwrap();
}

// The page bits of a record that is not refused.
fn write_page(page: &Page, bits: &mut [u8])
    requires { (fields_answer3 page.now.kind page.now.number (used_counts page.now) ≡ Done) × (length bits.old ≡ PAGE_BITS) }
    ensures { bits.new ≡ page_from page.now.prn page.now.number (page_fields page.now.kind) (used_counts page.now) (used_bits page.now) }
{
    write_head(page.prn, page.number, bits);
    page.kind.table().write(page.used_counts(), bits, HEAD_BITS);
    bits[HEAD_BITS + page.kind.bit_count()..].copy_from_slice(page.used_bits());
}

// Puts a record into 250 bytes; refused 1, 2 at the first of its bits that is neither 0 nor 1, then 9 at 9 for a page number that is
// not its own, or at the first bit of the first field out of its range. On a refusal the bytes stay.
pub fn put_page(page: Page, bits: &mut [u8]) -> Result<(), Refusal>
    ensures { (result ≡ put_page_answer page bits.old) × (bits.new ≡ put_page_bytes page bits.old) }
{
    if bits.len() != PAGE_BITS {
        return Err(Rule::Length.at(0));
    }
    judge_bits(page.used_bits())?;
    judge_record(&page)?;
    write_page(&page, bits);
    Ok(())
}
