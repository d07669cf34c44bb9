//! Keys of the states that wait to be expanded.

ghost use Rattle.std.specs.Prelude.{◌≡◌};
ghost use Rattle.pl_greedy.specs.Queue.{key_of, number_of};

/// The key of a state with a rank and a number. It is greater for a lower rank, and among equals for a lower
/// number.
pub(crate) fn key(rank: u32, n: u32) -> u64
    ensures { result ≡ key_of rank n }
{
    u64::MAX - (rank as u64 * 4_294_967_296 + n as u64)
}

/// The number of the state that a key stands for.
pub(crate) fn number(key: u64) -> u32
    ensures { result ≡ number_of key }
{
    ((u64::MAX - key) % 4_294_967_296) as u32
}
