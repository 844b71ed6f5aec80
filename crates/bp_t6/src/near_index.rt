// The modes near b1 by the first seven bits of their codes. That it agrees with the index of the codes is proved.

/// At each number of seven bits: 256 times the length of the code of the vertical or pass mode that
/// begins them, and the mode as the shift that is said of `Near`; 0 where none begins them.
pub static NEAR_INDEX: [u32; 128] = [
    0, 0, 1792, 1798, 1537, 1537, 1541, 1541, 1031, 1031, 1031, 1031, 1031, 1031, 1031, 1031, 0, 0,
    0, 0, 0, 0, 0, 0, 0, 0, 0, 0, 0, 0, 0, 0, 770, 770, 770, 770, 770, 770, 770, 770, 770, 770,
    770, 770, 770, 770, 770, 770, 772, 772, 772, 772, 772, 772, 772, 772, 772, 772, 772, 772, 772,
    772, 772, 772, 259, 259, 259, 259, 259, 259, 259, 259, 259, 259, 259, 259, 259, 259, 259, 259,
    259, 259, 259, 259, 259, 259, 259, 259, 259, 259, 259, 259, 259, 259, 259, 259, 259, 259, 259,
    259, 259, 259, 259, 259, 259, 259, 259, 259, 259, 259, 259, 259, 259, 259, 259, 259, 259, 259,
    259, 259, 259, 259, 259, 259, 259, 259, 259, 259,
];
