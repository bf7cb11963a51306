// The summary of bins and rest: two figures of how long what is bright is.
ghost use Rattle.std.specs.Prelude.{◌≡◌, ℕ, ◌+◌, ◌*◌, ◌≤◌, ◌<◌, length};
ghost use Rattle.answer.specs.Refusals.{rule_of};
ghost use Rattle.sizes.specs.Summary.{refused_by, summary_of};
ghost use Rattle.sizes.specs.Steps.{weighed, Exact, told};

use answer::{LONGEST, Refusal, is_outside};

// The mean length, how much of the light lies in the bins, and the number of the rule that refused the call, 0 where it is done. The number stands beside the floats,
// as `summary_of` has it and `c_number` hands it on: a refused summary has floats too, both 0.
#[derive(Clone, Copy, Debug, PartialEq)]
pub struct Summary {
    pub mean: f64,
    pub share: f64,
    pub number: u32,
}

// 2^53: up to here every whole number is an f64.
const EXACTEST: u64 = 1 << 53;

fn refused(refusal: Refusal) -> Summary
    ensures { result ≡ refused_by (rule_of refusal) }
{
    Summary {
        mean: 0.0,
        share: 0.0,
        number: refusal.number(),
    }
}

// sum + x · weight, which rule 11 keeps within EXACTEST.
fn added(sum: u64, x: u64, weight: u64) -> Result<u64, Refusal>
    ensures { Exact (sum + x * weight) result }
{
    let total = x.saturating_mul(weight).saturating_add(sum);
    Refusal::Bright.when(EXACTEST < total)?;
    Ok(total)
}

// The total of the entries, each multiplied by the weight of its index. Rule 11.
fn total_by<W: Fn(usize) -> u64>(sums: &[u64], weight: W) -> Result<u64, Refusal>
    requires { (i : ℕ) → i < length sums.now → W.pre weight i }
    ensures { (w : ℕ → ℕ) → ((i r : ℕ) → W.post weight i r → r ≡ w i) → Exact (weighed w sums.now) result }
{
    let mut total = 0;
    for (i, x) in sums.iter().enumerate() {
        total = added(total, *x, weight(i))?;
    }
    Ok(total)
}

// The summary of a sums slice, its number 0. Rules 4, 10, 11.
fn figures(sums: &[u64]) -> Result<Summary, Refusal>
    ensures { told result ≡ summary_of sums.now }
{
    Refusal::Sums.when(is_outside(sums.len(), 2, LONGEST + 1))?;
    let last = sums.len() - 1;
    let bins = &sums[..last];
    let light = total_by(bins, |_| 1)?;
    Refusal::Dark.when(light == 0)?;
    let all = added(light, sums[last], 1)?;
    let lengths = total_by(bins, |i| i as u64 + 1)?;
    Ok(Summary {
        mean: lengths as f64 / light as f64,
        share: light as f64 / all as f64,
        number: 0,
    })
}

// The summary of a sums slice, whatever its entries are. Rules 4, 10, 11.
pub fn summarize(sums: &[u64]) -> Summary
    ensures { result ≡ summary_of sums.now }
{
    figures(sums).unwrap_or_else(refused)
}
