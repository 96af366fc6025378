#![tactic(auto)]

// The greatest common divisor of two numbers.
ghost use Rattle.divisor.specs.Divisor.{Gcd};

// Replaces the pair by the smaller number and the remainder until nothing remains: the second number falls.
#[tactic(auto, using(crate::proofs::Divisor::steps))]
pub fn gcd(a: usize, b: usize) -> usize
    ensures { Gcd a b result }
{
    if b == 0 {
        return a;
    }
    gcd(b, a % b)
}
