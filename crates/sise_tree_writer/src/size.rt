// What a tree would add: its size, which is shown before the tree is written.
ghost use Rattle.std.specs.Prelude.{◌≡◌, Ok};
ghost use Rattle.sise_tree_writer.specs.Sizes.{measured_as, added, same, Grown};

use crate::serialize::WriteTreeError;
use sise_serializer::Serializer;

// The bytes, line breaks and indentations that would be added.
#[derive(Clone, Copy, Debug, PartialEq, Eq)]
pub struct TreeSize {
    pub bytes: usize,
    pub breaks: usize,
    pub indents: usize,
}

// What was added between two records.
pub(crate) fn size_between(before: Serializer, after: Serializer) -> TreeSize
    requires { Grown before after }
    ensures { measured_as (Ok result) ≡ added before after }
{
    TreeSize {
        bytes: after.position - before.position,
        breaks: after.breaks - before.breaks,
        indents: after.indents - before.indents,
    }
}

// Whether a size that was measured before is what is added between two records.
pub(crate) fn is_size(
    measured: Result<TreeSize, WriteTreeError>,
    before: Serializer,
    after: Serializer,
) -> bool
    requires { Grown before after }
    ensures { result ≡ same (measured_as measured) (added before after) }
{
    measured == Ok(size_between(before, after))
}
