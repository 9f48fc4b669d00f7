// The rows of a node that belong to its alternatives.
ghost use Rattle.std.specs.Prelude.{◌≡◌, drop};
ghost use mathlib.Core.List.{flatten};
ghost use Rattle.hgn.specs.Lists.{drop_until};
ghost use Rattle.hgn.specs.Rows.{has};
ghost use Rattle.hgn.specs.Tag.{alternative, wanted_true, wanted_false};
ghost use Rattle.hgn.specs.Meaning.{literals, node_of};
ghost use Rattle.sheet_index.specs.Index.{rows_in};

use sheet_index::rows::Rows;
use sheet_rows::tag;

// The rows behind the first 8; none where there is no 8.
pub fn behind_first_alternative<'a>(node: Rows<'a>) -> Rows<'a>
    ensures behind { rows_in result ≡ drop 1 (drop_until (has alternative) (rows_in node.entry)) }
    ensures wants { literals wanted_true wanted_false (rows_in result) ≡ flatten (node_of (rows_in node.entry)).formula }
{
    // By the row's number, since the rows behind it are handed back.
    for i in 0..node.count() {
        if node.tags[i] == tag::ALTERNATIVE {
            return node.skip(i + 1);
        }
    }
    node.skip(node.count())
}
