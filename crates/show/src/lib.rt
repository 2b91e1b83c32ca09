// What the trial programs print: a line for each expectation, and whether it is so. Each function hands back whether it is so.
#![tactic(auto)]

ghost use Rattle.std.specs.Prelude.{◌≡◌};
ghost use Rattle.show.specs.Answers.{is_done, is_refused};
ghost use Rattle.show.specs.Counts.{SameCounts};

use words::refusal::Refusal;

pub fn expected(text: &[u8], so: bool) -> bool
    ensures { result ≡ so }
{
    if so {
        io::write_all(1, b"ok     ");
    } else {
        io::write_all(1, b"WRONG  ");
    }
    io::write_all(1, text);
    io::write_all(1, b"\n");
    so
}

pub fn is_done<T>(answer: &Result<T, Refusal>) -> bool
    ensures { result ≡ is_done answer.now }
{
    answer.is_ok()
}

// The number is any byte, as `refuse` takes and gives each: a `Rule` would ask more of callers. So it is in `refused`.
pub fn is_refused<T>(answer: &Result<T, Refusal>, number: u8, place: usize) -> bool
    ensures { result ≡ is_refused answer.now number place }
{
    match answer {
        Ok(_) => false,
        Err(refusal) => *refusal == Refusal { number, place },
    }
}

pub fn done<T>(text: &[u8], answer: &Result<T, Refusal>) -> bool
    ensures { result ≡ is_done answer.now }
{
    expected(text, is_done(answer))
}

pub fn refused<T>(text: &[u8], answer: &Result<T, Refusal>, number: u8, place: usize) -> bool
    ensures { result ≡ is_refused answer.now number place }
{
    expected(text, is_refused(answer, number, place))
}

// Whether two lists of counts are the same.
#[tactic(auto, using(crate::proofs::Counts::counts_compared))]
pub fn same_counts(a: &[i64], b: &[i64]) -> bool
    ensures { SameCounts result a.now b.now }
{
    a == b
}
