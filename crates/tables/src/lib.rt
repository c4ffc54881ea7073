// The lent table set: places by name, and readers. It stays two slices: the C interface lends them so, and a reader takes the one that it reads.
#![tactic(auto)]

ghost use Rattle.std.specs.Prelude.{◌≡◌, ◌+◌, ◌*◌, ◌<◌, length};
ghost use Rattle.tables.specs.Places as Places;
ghost use Rattle.tables.specs.Tables as Tables;

// How long the two parts of a set are.
pub const WORDS: usize = 5963;

pub const BYTES: usize = 3908;

// Where each table begins in the words.
pub const COS: usize = 0;

pub const COS_SLOPE: usize = 64;

pub const LSP_MEAN: usize = 128;

pub const LSF_MEAN: usize = 138;

pub const PITCH_INTERP: usize = 148;

pub const OUT_FIR: usize = 179;

pub const OUT_IIR: usize = 183;

pub const FCB_INDEX_LIMIT: usize = 186;

pub const FCB_CLASS_BASE: usize = 187;

pub const FCB_PULSES: usize = 193;

pub const FCB_SHAPE_SEL: usize = 198;

pub const FCB_RADIX: usize = 213;

pub const FCB_RADIX_INV: usize = 228;

pub const FCB_POSITIONS: usize = 243;

pub const FCB_SHAPES: usize = 843;

pub const FCB_ALT_A: usize = 1483;

pub const FCB_ALT_B: usize = 4043;

pub const LSF_CB1: usize = 4683;

// Where each table begins in the bytes.
pub const PITCH_GAIN: usize = 0;

const LOG_GAIN: usize = 512;

const GAIN_BIAS: usize = 1024;

const LOW: usize = 1028;

const HIGH: usize = 2308;

const MA: usize = 3588;

// A set rule, 1 to 6, and a place that breaks it: a word's, or that of a float's first byte.
#[derive(Drop)]
pub struct Fault {
    pub rule: u8,
    pub place: usize,
}

// Nothing calls this: its proof holds the places above to those of the definitions.
fn agree() -> [usize; 26]
    ensures { result ≡ Places.places }
{
    [
        COS,
        COS_SLOPE,
        LSP_MEAN,
        LSF_MEAN,
        PITCH_INTERP,
        OUT_FIR,
        OUT_IIR,
        FCB_INDEX_LIMIT,
        FCB_CLASS_BASE,
        FCB_PULSES,
        FCB_SHAPE_SEL,
        FCB_RADIX,
        FCB_RADIX_INV,
        FCB_POSITIONS,
        FCB_SHAPES,
        FCB_ALT_A,
        FCB_ALT_B,
        LSF_CB1,
        PITCH_GAIN,
        LOG_GAIN,
        GAIN_BIAS,
        LOW,
        HIGH,
        MA,
        WORDS,
        BYTES,
    ]
}

// The word at a place.
pub fn word(words: &[i16], at: usize) -> i16
    requires { at < length words.now }
    ensures { result ≡ Tables.word words.now at }
{
    words[at]
}

// The word at a place, read without a sign.
pub fn unsigned_word(words: &[i16], at: usize) -> u16
    requires { at < length words.now }
    ensures { result ≡ Tables.unsigned_word words.now at }
{
    words[at].cast_unsigned()
}

// The f32 readers of config.rs. The pitch gain of a gain index.
pub fn pitch_gain(bytes: &[u8], i: usize) -> f32
    requires { (length bytes.now ≡ Places.BYTES) × (i < 128) }
    ensures { result ≡ Tables.pitch_gain_of bytes.now i }
{
    floats::float_at(bytes, PITCH_GAIN + 4 * i)
}

// The correction of a gain index.
pub fn log_gain(bytes: &[u8], i: usize) -> f32
    requires { (length bytes.now ≡ Places.BYTES) × (i < 128) }
    ensures { result ≡ Tables.log_gain bytes.now i }
{
    floats::float_at(bytes, LOG_GAIN + 4 * i)
}

// The bias of the predicted gain.
pub fn gain_bias(bytes: &[u8]) -> f32
    requires { length bytes.now ≡ Places.BYTES }
    ensures { result ≡ Tables.gain_bias bytes.now }
{
    floats::float_at(bytes, GAIN_BIAS)
}

// Place k of entry i of the second stage's lower codebook.
pub fn low(bytes: &[u8], i: usize, k: usize) -> f32
    requires { (length bytes.now ≡ Places.BYTES) × ((i < 64) × (k < 5)) }
    ensures { result ≡ Tables.low bytes.now i k }
{
    floats::float_at(bytes, LOW + 4 * (5 * i + k))
}

// Place k of entry i of its upper codebook.
pub fn high(bytes: &[u8], i: usize, k: usize) -> f32
    requires { (length bytes.now ≡ Places.BYTES) × ((i < 64) × (k < 5)) }
    ensures { result ≡ Tables.high bytes.now i k }
{
    floats::float_at(bytes, HIGH + 4 * (5 * i + k))
}

// A mode's coefficient for place k of a residual, of the own one (tap 0) or of one of the three before it.
pub fn ma(bytes: &[u8], mode: usize, tap: usize, k: usize) -> f32
    requires { (length bytes.now ≡ Places.BYTES) × ((mode < 2) × ((tap < 4) × (k < 10))) }
    ensures { result ≡ Tables.ma bytes.now mode tap k }
{
    floats::float_at(bytes, MA + 4 * (mode * 40 + tap * 10 + k))
}
