// Values laid over places.
ghost use Rattle.std.specs.Prelude.{◌≡◌, map, min, length};
ghost use Rattle.queue.specs.Laid.{laid, Computes};

// Writes what `change` makes of each value into the first places, as far as there are places; how many were written.
pub(crate) fn lay<A: Copy, B: Copy, F: Fn(A) -> B>(
    values: &[A],
    places: &mut [B],
    change: F,
) -> usize
    requires { F.IsAlwaysCallable change }
    ensures places { (h : A → B) → Computes (F.post change) h → places.new ≡ laid (map h values.now) places.old }
    ensures count { result ≡ min (length values.now) (length places.old) }
{
    let count = values.len().min(places.len());
    // By the place, not by `zip`: of a list that was walked so the elements are not known afterwards.
    for (i, value) in values[..count].iter().enumerate() {
        places[i] = change(*value);
    }
    count
}
