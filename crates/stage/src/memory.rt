// The memory of the stores and of the scratch.
ghost use Rattle.std.specs.Prelude.{◌≡◌, map, IfOk, vec_len};
ghost use Rattle.stage.specs.First.{laid};

use element::element::Element;
use element::words::Words;
use std::alloc::{AllocError, Global};

// So many null elements.
pub(crate) fn nulls<E: Element>(heap: Global, n: usize) -> Result<Vec<E>, AllocError>
    ensures { IfOk result (λ v. vec_len v ≡ n) }
{
    Vec::from_elem(heap, E::null(), n)
}

// The elements of these words, for the flat store.
pub(crate) fn unpacked<E: Element>(heap: Global, words: &[Words]) -> Result<Vec<E>, AllocError>
    ensures { IfOk result (λ v. v.items ≡ map E.unpacked words.now) }
{
    words.iter().map(|w| E::unpack(*w)).collect(heap)
}

// The words themselves, for the packed store.
pub(crate) fn laid_out(heap: Global, words: &[Words]) -> Result<Vec<u32>, AllocError>
    ensures { IfOk result (λ v. v.items ≡ laid words.now) }
{
    // The checker does not know what `flat_map` over arrays collects.
    let mut list = Vec::new(heap);
    for w in words {
        list.extend_from_slice(&[w.first, w.second])?;
    }
    Ok(list)
}

// The pairs of a list of words; an odd last word is none.
pub(crate) fn paired(heap: Global, list: &[u32]) -> Result<Vec<Words>, AllocError> {
    let (pairs, _odd) = list.as_chunks::<2>();
    pairs
        .iter()
        .map(|[first, second]| Words {
            first: *first,
            second: *second,
        })
        .collect(heap)
}
