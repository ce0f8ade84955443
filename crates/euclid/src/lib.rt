// Greatest common divisor by Euclid's rule, and the least common multiple above it.
#![tactic(auto)]

ghost use Rattle.std.specs.Prelude.{◌≡◌, ◌<◌, ◌≤◌};
ghost use Rattle.rules.specs.Euclid.{gcd_of, lcm_of};
ghost use Rattle.rules.specs.Table.{longest};

// Each pair is handed on as a smaller pair, until the remainder is 0.
#[tactic(auto, using(theory::proofs::Euclid::gcd_zero, theory::proofs::Euclid::gcd_rule))]
pub fn gcd(a: u32, b: u32) -> u32
    ensures { result ≡ gcd_of a b }
{
    if b == 0 { a } else { gcd(b, a % b) }
}

// Of a hyper-period so far and a period more.
#[tactic(auto, using(theory::proofs::Euclid::gcd_pos), unfolding(rules::specs::Euclid::lcm_of))]
pub fn lcm(a: u32, b: u32) -> u32
    requires { (0 < a) × (a ≤ longest) × (b ≤ longest) }
    ensures { result ≡ lcm_of a b }
{
    a / gcd(a, b) * b
}
