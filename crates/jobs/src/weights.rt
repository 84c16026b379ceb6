// 17: no weight of a candidate or of a row is over 2,000,000,000.
ghost use Rattle.std.specs.Prelude.{◌≡◌, ◌≤◌, length};
ghost use Rattle.jobs.specs.Job.{weights_fit, row_weights_fit};

// The first `count` places hold the weights of the candidates.
pub fn weights_fit(weights: &[u32], count: usize) -> bool
    requires { count ≤ length weights.now }
    ensures { result ≡ weights_fit weights.now count }
{
    weights[..count]
        .iter()
        .all(|weight| *weight <= terms::MAX_WEIGHT)
}

pub fn row_weights_fit(rows: &[[u32; 3]]) -> bool
    ensures { result ≡ row_weights_fit rows.now }
{
    rows.iter().all(|row| row[2] <= terms::MAX_WEIGHT)
}
