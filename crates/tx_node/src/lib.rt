//! Nodes. So far there is the box that has nothing in it.
#![tactic(auto)]

ghost use Rattle.std.specs.Prelude.{◌≡◌, pos};

use tx_num::Sp;

/// A box without content, by its sizes, and how far it is shifted down or to the right. *TeX: The Program*,
/// part 10.
#[derive(Clone, Copy, Debug, PartialEq, Eq)]
pub struct BoxNode {
    pub width: Sp,
    pub height: Sp,
    pub depth: Sp,
    pub shift: Sp,
}

impl BoxNode {
    /// A box without content and without size, which isn't shifted.
    pub fn empty() -> BoxNode
        ensures { result ≡ record { width = pos 0; height = pos 0; depth = pos 0; shift = pos 0 } }
    {
        BoxNode {
            width: Sp::ZERO,
            height: Sp::ZERO,
            depth: Sp::ZERO,
            shift: Sp::ZERO,
        }
    }
}

#[cfg(test)]
mod tests {
    use super::*;
    use std::test::Fail;

    #[test]
    fn without_size(rt: HostRuntime) -> Result<(), Fail> {
        let node = BoxNode::empty();
        assert_eq!(rt; node.width, Sp::ZERO);
        assert_eq!(rt; node.height, Sp::ZERO);
        assert_eq!(rt; node.depth, Sp::ZERO);
        assert_eq!(rt; node.shift, Sp::ZERO);
        Ok(())
    }
}
