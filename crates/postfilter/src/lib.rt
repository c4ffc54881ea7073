// Two cascaded output reconstruction sections.
#![tactic(auto)]

ghost use Rattle.std.specs.Prelude.{◌≡◌, ◌≤◌, length};
ghost use Rattle.tables.specs.Places.{WORDS};
ghost use Rattle.output_filter.specs.Postfilter as Postfilter;

use output_filter::{Filtered, OutputFilter};
use scaling::scale;
use sections::{both, clipped, lines_of, shorten, taps_of, through};

// Run a block of at most 80 samples through the first section, what comes of it through the second, and scale what comes of that.
pub fn run(filter: OutputFilter, words: &[i16], block: &mut [i16]) -> Filtered
    requires { (length words.now ≡ WORDS) × (length block.old ≤ 80) }
    ensures outputs { block.new ≡ Postfilter.outputs words.now filter block.old }
    ensures filtered { result ≡ Postfilter.filtered words.now filter block.old }
{
    let count = block.len();
    let taps = taps_of(words);
    let mut wide_firsts = [0i32; 80];
    let first_lines = lines_of(filter, 0);
    let first = through(taps, first_lines, &block[..], &mut wide_firsts[..count]);
    let mut firsts = [0i16; 80];
    shorten(&wide_firsts[..count], &mut firsts[..count]);
    let mut wide_seconds = [0i32; 80];
    let second_lines = lines_of(filter, 3);
    let second = through(
        taps,
        second_lines,
        &firsts[..count],
        &mut wide_seconds[..count],
    );
    shorten(&wide_seconds[..count], block);
    scale(block);
    let clipped = clipped(
        &wide_firsts[..count],
        &wide_seconds[..count],
        &firsts[..count],
        &block[..],
    );
    let left = both(first, second);
    Filtered {
        filter: left,
        clipped,
    }
}
