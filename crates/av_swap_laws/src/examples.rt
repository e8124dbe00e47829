//! That the laws can be met: one step after the other.

ghost use Rattle.av_swap_laws.specs.Example.{GoesOutAndComesBack};

/// A page goes out to a swap area and comes back: what the laws ask for can be met, one after the
/// other.
pub fn a_page_goes_out_and_comes_back()
    ensures { GoesOutAndComesBack }
{}
