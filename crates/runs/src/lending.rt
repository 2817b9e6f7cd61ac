// The lent areas, one behind the other.
ghost use Rattle.std.specs.Prelude.{◌≡◌, replicate, IfOk};

use costs::Cost;
use replay::calls::Part;
use std::alloc::{AllocError, Global};

// The parts of the cells that areas of these lengths are.
// Not a chain: each part starts where the one before it ends, and a loop says so more plainly than scan.
pub(crate) fn parts_of(heap: Global, lengths: &[u16]) -> Result<Vec<Part>, AllocError> {
    let mut parts = Vec::new(heap);
    let mut start = 0usize;
    for length in lengths {
        let len = usize::from(*length);
        parts.push(Part { start, len })?;
        start = start.saturating_add(len);
    }
    Ok(parts)
}

// How many cells the areas have together.
pub(crate) fn cells_of(lengths: &[u16]) -> usize {
    lengths.iter().fold(
        0usize,
        |cells, length| cells.saturating_add(usize::from(*length)),
    )
}

// The cells of a part, none where it passes their end.
pub(crate) fn lent<C>(cells: &[C], part: Part) -> &[C] {
    part.start
        .checked_add(part.len)
        .and_then(|end| cells.get(part.start..end))
        .unwrap_or(&[])
}

// So many cells of one content.
// Not vec!: it asks of a clone that it is the same, which the trait Cost does not promise.
pub(crate) fn filled<C: Cost>(heap: Global, content: C, count: usize) -> Result<Vec<C>, AllocError>
    ensures { IfOk result (λ v. v.items ≡ replicate count content) }
{
    let mut cells = Vec::new(heap);
    cells.resize_with(count, || content)?;
    Ok(cells)
}
