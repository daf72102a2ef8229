// A factor's tables against A's under the order of elimination, where both are known to be of good shape. Column by column, from the
// tables handed in: no scratch is lent, and none of the calls holds more than 48 KiB of local arrays.
// Kept: what is known of the lists that are compared is one named record, `Compared`.
ghost use Rattle.std.specs.Prelude.{◌≡◌, length};
ghost use Rattle.graph.specs.Links.{rows_in};
ghost use Rattle.match_rows.specs.Rows.{Compared, given_in, LowestOf};
ghost use Rattle.factor_match.specs.Match.{before, match_of};

use match_rows::cores::{Links, first_off, first_stray, first_unlinked, first_unpassed};

// The first column of a factor that is not the system's.
#[derive(Clone, Copy, Debug, PartialEq, Eq)]
pub enum ColumnError {
    // It lacks a row of the path rule.
    Missing { column: usize },
    // It lacks none, and lists a row too many.
    Extra { column: usize },
    // Its rows are right, and its parent is not Liu's.
    Parent { column: usize },
}

// The lowest column that lacks a row it is given, by a link or by a child, if one does.
pub fn first_lacking(links: &Links, l_starts: &[u32], l_rows: &[u32]) -> Option<usize>
    requires compared { Compared links.now.starts.now links.now.rows.now links.now.order.now l_starts.now l_rows.now }
    ensures { LowestOf (given_in links.now.starts.now links.now.rows.now links.now.order.now l_starts.now l_rows.now) (rows_in l_starts.now l_rows.now) (length links.now.order.now) result }
{
    let unlinked = first_unlinked(links, l_starts, l_rows);
    let unpassed = first_unpassed(l_starts, l_rows, links.order.len());
    match unpassed {
        Some(column) if is_before(column, unlinked) => unpassed,
        _ => unlinked,
    }
}

// Does a column come before another, where there is another?
pub fn is_before(column: usize, other: Option<usize>) -> bool
    ensures { result ≡ before column other }
{
    other.is_none_or(|o| column < o)
}

// Every column has the rows of the path rule and Liu's parent, or which column of the factor is the first that is wrong, and how.
//     links                       A's tables, by old number, and the permutation after the late move
//     parents, l_starts, l_rows   the factor's tables, by new number
pub fn first_wrong(
    links: &Links,
    parents: &[u32],
    l_starts: &[u32],
    l_rows: &[u32],
) -> Result<(), ColumnError>
    requires compared { Compared links.now.starts.now links.now.rows.now links.now.order.now l_starts.now l_rows.now }
    requires parents_len { length parents.now ≡ length links.now.order.now }
    ensures { result ≡ match_of links.now.starts.now links.now.rows.now links.now.order.now parents.now l_starts.now l_rows.now }
{
    let lack = first_lacking(links, l_starts, l_rows);
    let stray = first_stray(links, l_starts, l_rows);
    if let Some(column) = first_off(parents, l_starts, l_rows) {
        if is_before(column, lack) && is_before(column, stray) {
            return Err(ColumnError::Parent { column });
        }
    }
    if let Some(column) = stray {
        if is_before(column, lack) {
            return Err(ColumnError::Extra { column });
        }
    }
    if let Some(column) = lack {
        return Err(ColumnError::Missing { column });
    }
    Ok(())
}
