// The calls over bytes and the version of the interface, for C and Rust. Each is the one of exports, with its contract.
#![tactic(auto)]

ghost use Rattle.std.specs.Prelude.{◌≡◌};
ghost use Rattle.compiler.specs.CompileTo.{compile_to};
ghost use Rattle.decompiler.specs.ReadBackTo.{read_back_to};
ghost use Rattle.delivery.specs.Delivered.{delivered};
ghost use Rattle.exports.specs.Written.{written};
ghost use Rattle.forecast.specs.Figures.{forecast_of};
ghost use Rattle.formula.specs.FormulaTo.{formula_to};
ghost use Rattle.listing.specs.Listed.{listed};
ghost use Rattle.script.specs.Outcome.{done};
ghost use Rattle.script.specs.Reader.{read_job};

use exports::Written;
use forecast::ForecastReply;

// The job of a typed script.
#[unsafe(no_mangle)]
pub extern "C" fn kuspigo_formula(text: &[u8], out: &mut [u8]) -> Written
    ensures { written (formula_to text.now out.old) ≡ record { reply = result; output = out.new } }
{
    exports::kuspigo_formula(text, out)
}

// A job's code.
#[unsafe(no_mangle)]
pub extern "C" fn kuspigo_compile(job: &[u8], out: &mut [u8]) -> Written
    ensures { written (compile_to job.now out.old) ≡ record { reply = result; output = out.new } }
{
    exports::kuspigo_compile(job, out)
}

// The job of code.
#[unsafe(no_mangle)]
pub extern "C" fn kuspigo_read_back(code: &[u8], out: &mut [u8]) -> Written
    ensures { written (read_back_to code.now out.old) ≡ record { reply = result; output = out.new } }
{
    exports::kuspigo_read_back(code, out)
}

// What a job will need.
#[unsafe(no_mangle)]
pub extern "C" fn kuspigo_forecast(job: &[u8]) -> ForecastReply
    ensures { result ≡ forecast_of (read_job job.now) }
{
    exports::kuspigo_forecast(job)
}

// What the run program prints.
#[unsafe(no_mangle)]
pub extern "C" fn kuspigo_report(input: &[u8], out: &mut [u8]) -> Written
    ensures { written (delivered (done (listed input.now)) out.old) ≡ record { reply = result; output = out.new } }
{
    exports::kuspigo_report(input, out)
}

// The version of the C interface. Its name holds the number, so that a header or wrapper of another version does not link.
#[unsafe(no_mangle)]
pub extern "C" fn kuspigo_api_3() -> usize
    ensures { result ≡ 3 }
{
    exports::kuspigo_api_3()
}
