ghost use Rattle.std.specs.Prelude.{◌≡◌};
ghost use Rattle.jac_template.specs.declared.fault.TemplateFault.TheVariants as faults;

use jac_forms::FormFault;
use jac_tree::TreeFault;
use jac_value::Memory;

/// Why a text is no template. Each place is that of the first byte of a tag, counted in bytes from
/// 0.
#[derive(Drop)]
pub enum TemplateFault {
    /// A tag has no end, or a block has no `end`. For blocks, this is the innermost one that is
    /// open at the end of the text.
    Unclosed(u64),
    /// An `else` or an `end` without its block, or a tree that has none of the forms of a tag.
    Stray(u64),
    /// A block inside 64 blocks.
    Deep(u64),
    /// The tag's content is no tree. Places in it are counted from the content's first byte.
    Tree(u64, TreeFault),
    /// The tag's expression or query can't be read. The path begins at that expression or query.
    Form(u64, FormFault),
    Memory,
}

impl From<Memory> for TemplateFault {
    ghost from_gives = { λ _ f. f ≡ faults.Memory };

    fn from(_: Memory) -> TemplateFault {
        TemplateFault::Memory
    }
}
