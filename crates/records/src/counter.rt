// Counters (01, "Alert and result"): totals saturate, alert numbers wrap.
ghost use Rattle.std.specs.Prelude.{◌≡◌};
ghost use Rattle.records.specs.Counter.{saturated, wrapped};

// One more, or the most.
pub fn saturating_increment(x: u64) -> u64
    ensures { result ≡ saturated x }
{
    x.saturating_add(1)
}

// One more, modulo 2^64.
pub fn wrapping_increment(x: u64) -> u64
    ensures { result ≡ wrapped x }
{
    x.wrapping_add(1)
}
