// The image of a state written, its parts in document 01's order.
#![tactic(auto)]

ghost use Rattle.std.specs.Prelude.{◌≡◌, length};
ghost use Rattle.image.specs.Image as Image;

use image::{
    EXCITATION, FIR, GAINS, IIR, LAST_HALF_LAG, LSP, MARK, MEMORY, RESIDUALS, SHARPEN_FIXED, SURE,
};
use image_bytes::{put_floats, put_longs, put_words};
use state::State;

// The image of a state.
pub fn write(state: State, room: &mut [u8])
    requires { length room.old ≡ Image.SIZE }
    ensures { room.new ≡ Image.image state }
{
    let sharpen_fixed = [state.sharpen_fixed];
    let last_half_lag = [state.last_half_lag];
    put_words(&state.lsp, room, LSP);
    put_words(&state.excitation, room, EXCITATION);
    put_words(&state.memory, room, MEMORY);
    put_words(&sharpen_fixed, room, SHARPEN_FIXED);
    put_words(&last_half_lag, room, LAST_HALF_LAG);
    put_words(&state.fir, room, FIR);
    put_longs(&state.iir, room, IIR);
    put_floats(&state.residuals, room, RESIDUALS);
    put_floats(&state.gains, room, GAINS);
    room[MARK] = state.mark;
    room[SURE] = state.sure;
}
