// Which depths are known: with planes of `u8`, with planes of `u16`, and with either.
ghost use Rattle.std.specs.Prelude.{◌≡◌, ℕ, List, true, T};
ghost use Rattle.yuv_support.specs.Settings.{among, depths, depths8, depths16};

pub trait Depths {
    ghost known: { List ℕ };

    fn is_known_depth(depth: u32) -> bool
        ensures known { result ≡ among depth known }
        ensures depth { result ≡ true → T (among depth depths) };
}

impl Depths for u8 {
    ghost known = { depths8 };

    fn is_known_depth(depth: u32) -> bool {
        depth == 8
    }
}

impl Depths for u16 {
    ghost known = { depths16 };

    fn is_known_depth(depth: u32) -> bool {
        depth == 10 || depth == 12
    }
}

// No element: the settings alone are asked of.
pub struct EitherElement;

impl Depths for EitherElement {
    ghost known = { depths };

    fn is_known_depth(depth: u32) -> bool {
        yuv_support::is_depth(depth)
    }
}
