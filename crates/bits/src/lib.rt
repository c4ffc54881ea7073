// A frame of 20 bytes and the bits of its 24 fields, read and written: post_fec.rs, bits.rs. What the fields are is `frame_params`.
#![tactic(auto)]

ghost use Rattle.std.specs.Prelude.{◌≡◌, map, ℕ, ◌+◌, ◌*◌, ◌/◌, ◌%◌, ◌^◌, ◌<◌, ◌≤◌, length, get_or, take, drop};
ghost use Rattle.sequence.specs.Table.{table};
ghost use Rattle.bits.specs.Bits as Bits;

// The frame bits of each field, highest first, field after field: what `gather` and `spread` walk.
const PLACES: [u8; 158] = [
    // gain_low0 of the first half
    23, 24, 25, 26,
    // gain_low1 of the first half
    35, 36, 37, 38,
    // code0 of the first half
    18, 19, 125, 123, 84, 82, 124, 122, 89, 87, 129, 127, 88, 86, 128, 126,
    // code1 of the first half
    30, 31, 133, 131, 92, 90, 132, 130, 97, 95, 137, 135, 96, 94, 136, 134,
    // gain_high0 of the first half
    20, 21, 22,
    // gain_high1 of the first half
    32, 33, 34,
    // mode of the first half
    0,
    // stage1 of the first half
    1, 2, 3, 4, 5, 6, 7,
    // stage2_low of the first half
    8, 9, 10, 11, 81, 79,
    // stage2_high of the first half
    121, 119, 80, 78, 120, 118,
    // absolute_pitch of the first half
    12, 13, 14, 15, 16, 17, 85, 83,
    // relative_pitch of the first half
    27, 28, 29, 93, 91,
    // gain_low0 of the second half
    62, 63, 64, 65,
    // gain_low1 of the second half
    74, 75, 76, 77,
    // code0 of the second half
    57, 58, 145, 143, 104, 102, 144, 142, 109, 107, 149, 147, 108, 106, 148, 146,
    // code1 of the second half
    69, 70, 153, 151, 112, 110, 152, 150, 117, 115, 157, 155, 116, 114, 156, 154,
    // gain_high0 of the second half
    59, 60, 61,
    // gain_high1 of the second half
    71, 72, 73,
    // mode of the second half
    39,
    // stage1 of the second half
    40, 41, 42, 43, 44, 45, 46,
    // stage2_low of the second half
    47, 48, 49, 50, 101, 99,
    // stage2_high of the second half
    141, 139, 100, 98, 140, 138,
    // absolute_pitch of the second half
    51, 52, 53, 54, 55, 56, 105, 103,
    // relative_pitch of the second half
    66, 67, 68, 113, 111,
];

// How many of them each field has.
const WIDTHS: [u8; 24] = [
    4, 4, 16, 16, 3, 3, 1, 7, 6, 6, 8, 5, 4, 4, 16, 16, 3, 3, 1, 7, 6, 6, 8, 5,
];

#[derive(Clone, Copy, Default)]
pub struct HalfParams {
    pub gain_low0: u16,
    pub gain_low1: u16,
    pub code0: u16,
    pub code1: u16,
    pub gain_high0: u16,
    pub gain_high1: u16,
    pub mode: u16,
    pub stage1: u16,
    pub stage2_low: u16,
    pub stage2_high: u16,
    pub absolute_pitch: u16,
    pub relative_pitch: u16,
}

#[derive(Clone, Copy, Default)]
pub struct FrameParams {
    pub first: HalfParams,
    pub second: HalfParams,
}

// The table is lent, since a constant that is read in a loop is made anew at each turn.
fn place(places: &[u8], j: usize) -> usize
    requires { (places.now ≡ Bits.places) × (j < 158) }
    ensures { result ≡ get_or Bits.places j 0 }
{
    usize::from(places[j])
}

pub fn width(k: usize) -> usize
    requires { k < 24 }
    ensures { result ≡ get_or Bits.widths k 0 }
{
    usize::from(WIDTHS[k])
}

// 1 where frame bit i is inverted on reading, else 0.
pub fn inverted(i: usize) -> u8
    ensures { (result ≡ Bits.inverted i) × (result < 2) }
{
    match i {
        // the last bit of the first half's stage2_low
        79 => 1,
        // the last two of its absolute_pitch
        83 | 85 => 1,
        _ => 0,
    }
}

// Frame bit i as it is read.
pub fn bit(payload: &[u8], i: usize) -> u8
    requires { (length payload.now ≡ 20) × (i < 160) }
    ensures { (result ≡ Bits.read_bit payload.now i) × (result < 2) }
{
    let k = i / 8;
    let s = i % 8;
    let b = (payload[k] >> s) % 2;
    (b + inverted(i)) % 2
}

// The number at these places of the table.
fn read(places: &[u8], payload: &[u8], at: usize, width: usize) -> u16
    requires { (places.now ≡ Bits.places) × (length payload.now ≡ 20) × (at + width ≤ 158) × (width ≤ 16) }
    ensures { result ≡ Bits.read 0 (map (Bits.read_bit payload.now) (take width (drop at Bits.places))) }
{
    let mut v = 0;
    for j in at..at + width {
        v = v * 2 + u16::from(bit(payload, place(places, j)));
    }
    v
}

// The fields as they are read.
pub fn gather(payload: &[u8]) -> [u16; 24]
    requires { length payload.now ≡ 20 }
    ensures { result ≡ Bits.gather (Bits.read_bit payload.now) }
{
    let places = PLACES;
    let mut fields = [0u16; 24];
    let mut at: usize = 0;
    for k in 0..24 {
        let w = width(k);
        fields[k] = read(&places[..], payload, at, w);
        at += w;
    }
    fields
}

fn digit(v: u16, t: usize) -> u8
    requires { t < 16 }
    ensures { (result ≡ v / 2 ^ t % 2) × (result < 2) }
{
    ((v >> t) % 2) as u8
}

// v's digits put at these places of the table.
fn write(places: &[u8], bits: &mut [u8; 160], at: usize, width: usize, v: u16)
    requires { (places.now ≡ Bits.places) × (at + width ≤ 158) × (width ≤ 16) }
    ensures { bits.new ≡ Bits.scatter bits.old (take width (drop at Bits.places)) (Bits.digits width v) }
{
    for k in 0..width {
        let i = place(places, at + k);
        bits[i] = (digit(v, width - 1 - k) + inverted(i)) % 2;
    }
}

// The 160 bits of the frame that reads as these fields.
pub fn spread(fields: [u16; 24]) -> [u8; 160]
    ensures { result ≡ Bits.spread fields }
{
    let places = PLACES;
    let mut bits = [0u8; 160];
    let mut at: usize = 0;
    for k in 0..24 {
        let w = width(k);
        let v = fields[k];
        write(&places[..], &mut bits, at, w, v);
        at += w;
    }
    bits
}

// Byte b of the frame that has these bits.
fn byte(bits: &[u8; 160], b: usize) -> u8
    requires { (b < 20) × ((k : ℕ) → get_or bits.now k 0 < 2) }
    ensures { result ≡ Bits.byte_of bits.now b }
{
    let mut v = 0;
    for t in (0..8).rev() {
        v = v * 2 + bits[b * 8 + t];
    }
    v
}

// The 20 bytes that have these bits.
pub fn put_bytes(bits: &[u8; 160], out: &mut [u8])
    requires { (length out.old ≡ 20) × ((k : ℕ) → get_or bits.now k 0 < 2) }
    ensures { out.new ≡ table (Bits.byte_of bits.now) 20 }
{
    for b in 0..20 {
        out[b] = byte(bits, b);
    }
}
