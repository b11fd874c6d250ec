// The calls that write to a lent output, and the forecast, for C and Rust: numbers and slices only, answers as structs of numbers.
#![tactic(auto)]

ghost use Rattle.std.specs.Prelude.{◌≡◌, List};
ghost use Rattle.exports.specs.Written.{written, writing};
ghost use Rattle.compiler.specs.CompileTo.{compile_to};
ghost use Rattle.decompiler.specs.ReadBackTo.{read_back_to};
ghost use Rattle.delivery.specs.Delivered.{delivered};
ghost use Rattle.forecast.specs.Figures.{forecast_of};
ghost use Rattle.formula.specs.FormulaTo.{formula_to};
ghost use Rattle.listing.specs.Listed.{listed};
ghost use Rattle.script.specs.Outcome.{done};
ghost use Rattle.script.specs.Reader.{read_job};
ghost use Rattle.terms.specs.Numbers.{outcome};

use forecast::ForecastReply;
use terms::Refusal;

// The answer: the papers' number of the refusal, 0 if there is none, and the place; the length of the result, 0 if it was refused.
#[repr(C)]
#[derive(Clone, Copy)]
pub struct Written {
    pub refusal: usize,
    pub place: usize,
    pub length: usize,
}

impl From<Result<usize, Refusal>> for Written {
    ghost from_gives = { λ answer numbers. numbers ≡ writing (outcome answer) };

    // An answer in numbers.
    fn from(answer: Result<usize, Refusal>) -> Written {
        match answer {
            Ok(length) => Written {
                refusal: 0,
                place: 0,
                length,
            },
            Err(Refusal { reason, place }) => Written {
                refusal: usize::from(reason.number()),
                place,
                length: 0,
            },
        }
    }
}

// `formula::formula`.
pub fn kuspigo_formula(text: &[u8], out: &mut [u8]) -> Written
    ensures { written (formula_to text.now out.old) ≡ record { reply = result; output = out.new } }
{
    Written::from(formula::formula(text, out))
}

// `compiler::compile`.
pub fn kuspigo_compile(job: &[u8], out: &mut [u8]) -> Written
    ensures { written (compile_to job.now out.old) ≡ record { reply = result; output = out.new } }
{
    Written::from(compiler::compile(job, out))
}

// `compiler::read_back`.
pub fn kuspigo_read_back(code: &[u8], out: &mut [u8]) -> Written
    ensures { written (read_back_to code.now out.old) ≡ record { reply = result; output = out.new } }
{
    Written::from(compiler::read_back(code, out))
}

// `forecast::forecast`.
pub fn kuspigo_forecast(job: &[u8]) -> ForecastReply
    ensures { result ≡ forecast_of (read_job job.now) }
{
    forecast::forecast(job)
}

// `listing::report`.
pub fn kuspigo_report(input: &[u8], out: &mut [u8]) -> Written
    ensures { written (delivered (done (listed input.now)) out.old) ≡ record { reply = result; output = out.new } }
{
    Written::from(listing::report(input, out))
}

// The version of the C interface. Its name holds the number, so that a header or wrapper of another version does not link.
pub fn kuspigo_api_3() -> usize
    ensures { result ≡ 3 }
{
    3
}
