ghost use Rattle.std.specs.Prelude.{◌≡◌, map, length};
ghost use Rattle.queue.specs.Examples.{answer, expected, examples};

// How many worked examples the definitions of a queue are held against.
pub fn example_count() -> usize
    ensures count { result ≡ length examples }
    ensures hold { map answer examples ≡ map expected examples }
{
    4
}
