// Submatrices B, C, D and E of subframe 2, as IS-GPS-800 prints them: the row and the column of each one.

// Table 6.2-3.
#[rattlefmt::skip]
pub(crate) static B2: [(u16, u16); 14] = [
    (1, 1), (44, 1), (110, 1), (155, 1), (178, 1), (205, 1), (229, 1), (263, 1), (269, 1),
    (335, 1), (423, 1), (510, 1), (532, 1), (597, 1),
];

// Table 6.2-4.
#[rattlefmt::skip]
pub(crate) static C2: [(u16, u16); 5] = [(1, 74), (1, 322), (1, 402), (1, 485), (1, 527)];

// Table 6.2-5.
#[rattlefmt::skip]
pub(crate) static D2: [(u16, u16); 1] = [(1, 1)];

// Table 6.2-6.
#[rattlefmt::skip]
pub(crate) static E2: [(u16, u16); 2] = [(1, 598), (1, 599)];
