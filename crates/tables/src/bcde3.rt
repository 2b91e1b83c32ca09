// Submatrices B, C, D and E of subframe 3, as IS-GPS-800 prints them: the row and the column of each one.

// Table 6.2-9.
#[rattlefmt::skip]
pub(crate) static B3: [(u16, u16); 10] = [
    (3, 1), (20, 1), (71, 1), (76, 1), (124, 1), (137, 1), (155, 1), (195, 1), (222, 1), (253, 1),
];

// Table 6.2-10.
#[rattlefmt::skip]
pub(crate) static C3: [(u16, u16); 4] = [(1, 23), (1, 86), (1, 177), (1, 227)];

// Table 6.2-11.
#[rattlefmt::skip]
pub(crate) static D3: [(u16, u16); 1] = [(1, 1)];

// Table 6.2-12.
#[rattlefmt::skip]
pub(crate) static E3: [(u16, u16); 2] = [(1, 271), (1, 273)];
