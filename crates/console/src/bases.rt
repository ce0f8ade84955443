// The bases that numbers and bytes are written in.
pub const TEN: u8 = 10;

// As wide as the numbers; `as`, because Rattle calls no function, so no `From`, in the value of a constant.
pub const WIDE: u64 = TEN as u64;

pub const SIXTEEN: u8 = 16;
