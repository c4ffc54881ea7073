// What a refused frame and a missed one leave of a state's image: the last two bytes become 0.
#![tactic(auto)]

ghost use Rattle.std.specs.Prelude.{◌≡◌, length, set};

// The place of an image's mark, and of how sure it is.
const MARK: usize = 524;

const SURE: usize = 525;

// The mark falls to 0, and with it how sure it is.
pub fn lower(image: &mut [u8])
    requires { length image.old ≡ 526 }
    ensures { image.new ≡ set (set image.old 524 0) 525 0 }
{
    image[MARK] = 0; // whatever it came with
    image[SURE] = 0;
}
