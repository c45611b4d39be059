ghost use Rattle.std.specs.Prelude.{◌≡◌, ◌≤◌};

/// How many workers run: as many as the words name, which is 1 to 32 in each command that was read, and else the nearest of these.
pub fn worker_count(named: u32) -> u32
    ensures range { (1 ≤ result) × (result ≤ 32) }
    ensures named { 1 ≤ named → named ≤ 32 → result ≡ named }
{
    named.max(1).min(32)
}
