// A frame as the line of 162 digits that one receiver dumps, and back: post_fec.rs's `receiver_bits`, and the four frame bits that it drops.
#![tactic(auto)]

ghost use Rattle.std.specs.Prelude.{◌≡◌, true, ◌+◌, ◌<◌, length, get_or};
ghost use Rattle.sequence.specs.All.{all};
ghost use Rattle.sequence.specs.Table.{table};
ghost use Rattle.bits.specs.Bits.{read_bit};
ghost use Rattle.refusal.specs.Numbers.{told};
ghost use Rattle.receiver.specs.Receiver as Receiver;

use refusal::Refusal;
use std::array;

// The frame bit of each digit: what `digits_of` and `bits_of` walk.
const ORDER: [u8; 162] = [
    // positions 0 to 79
    78, 79, 80, 81, 82, 83, 84, 85, 86, 87, 88, 89, 90, 91, 92, 93, 94, 95, 96, 97, 98, 99, 100,
    101, 102, 103, 104, 105, 106, 107, 108, 109, 110, 111, 112, 113, 114, 115, 116, 117, 118, 119,
    120, 121, 122, 123, 124, 125, 126, 127, 128, 129, 130, 131, 132, 133, 134, 135, 136, 137, 138,
    139, 140, 141, 142, 143, 144, 145, 146, 147, 148, 149, 150, 151, 152, 153, 154, 155, 156, 157,
    // reserved: no frame bit, so a padding bit, which is 0 in every accepted frame
    158, 158, 158, 158,
    // positions 84 to 157
    0, 1, 2, 3, 4, 5, 6, 7, 8, 9, 10, 11, 12, 13, 14, 15, 16, 17, 18, 19, 20, 21, 22, 23, 24, 25,
    26, 27, 28, 29, 30, 31, 32, 33, 34, 35, 36, 37, 38, 39, 40, 41, 42, 43, 44, 45, 46, 47, 48, 49,
    50, 51, 52, 53, 54, 55, 56, 57, 58, 59, 60, 61, 62, 63, 64, 65, 66, 67, 68, 69, 70, 71, 72, 73,
    // the four that `receiver_bits` drops
    74, 75, 76, 77,
];

// The frame bit of digit j. The table is lent, since a constant that is read in a loop is made anew at each turn.
fn place(order: &[u8], j: usize) -> usize
    requires table { order.now ≡ Receiver.order }
    requires below { j < 162 }
    ensures value { result ≡ get_or Receiver.order j 0 }
    ensures bit { result < 159 }
{
    usize::from(order[j])
}

// The line of 20 bytes.
fn digits_of(order: &[u8], payload: &[u8]) -> [u8; 162]
    requires table { order.now ≡ Receiver.order }
    requires bytes { length payload.now ≡ 20 }
    ensures { result ≡ table (λ j. 48 + read_bit payload.now (get_or Receiver.order j 0)) 162 }
{
    array::from_fn(|j| b'0' + bits::bit(payload, place(order, j)))
}

// Writes the line of a frame, once it is not refused.
pub fn write(payload: &[u8], line: &mut [u8; 162]) -> Result<(), Refusal>
    ensures answer { result ≡ Receiver.write payload.now }
    ensures number { told result ≡ Receiver.write_number payload.now }
    ensures line { line.new ≡ Receiver.written payload.now line.old }
{
    if payload.len() != 20 {
        return Err(Refusal::FrameLength);
    }
    if payload[19] & 0xc0 != 0 {
        return Err(Refusal::Padding);
    }
    *line = digits_of(&ORDER, payload);
    Ok(())
}

fn up_to(top: u8, c: u8) -> bool
    ensures { result ≡ Receiver.up_to top c }
{
    b'0' <= c && c <= top
}

fn all_up_to(top: u8, text: &[u8]) -> bool
    ensures { result ≡ all (Receiver.up_to top) text.now }
{
    text.iter().all(|&c| up_to(top, c))
}

fn is_line(line: &[u8]) -> bool
    ensures { result ≡ Receiver.is_line line.now }
{
    line.len() == 162 && all_up_to(b'1', line) && all_up_to(b'0', &line[80..84])
}

// The frame's bits.
fn bits_of(line: &[u8]) -> [u8; 160]
    requires { length line.now ≡ 162 }
    ensures { result ≡ Receiver.bits_of line.now }
{
    let order = ORDER;
    let mut out = [0u8; 160];
    for j in 0..162 {
        let i = place(&order, j);
        out[i] = (line[j] % 2 + bits::inverted(i)) % 2;
    }
    out
}

// Writes the frame of a line, once it is not refused.
pub fn read(line: &[u8], payload: &mut [u8; 20]) -> Result<(), Refusal>
    ensures answer { result ≡ Receiver.read line.now }
    ensures number { told result ≡ Receiver.read_number line.now }
    ensures payload { payload.new ≡ Receiver.taken line.now payload.old }
{
    if is_line(line) {
        let frame_bits = bits_of(line);
        let mut frame = [0u8; 20];
        bits::put_bytes(&frame_bits, &mut frame);
        *payload = frame;
        return Ok(());
    }
    Err(Refusal::NoReceiverLine)
}
