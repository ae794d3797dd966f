//! Laws, each the contract of a function that does nothing but call laws of the crates below, and those of them that
//! `pz_run` calls.

ghost use Rattle.pz_run_output.specs.Formats.{FormatsReadBack};
ghost use Rattle.pz_run_output.specs.devices.Replaying.{TracesKnown};

pub use pz_env_closing::laws::{closed_runs_are_driven, driven_runs_end_once};
pub use pz_env_closing::pz_env_script::laws::texts_have_one_answer;
pub use pz_env_closing::pz_run_playing::laws::one_run;
pub use pz_run_lines::pz_run_reading::laws::{one_model, open_or_refused};
pub use pz_trace::laws::headers_differ;

/// Each event of a run of a model that was read has a line of its own, a text is the trace of runs with one
/// ending alone, and its first line tells one form.
pub fn traces_are_known()
    ensures { TracesKnown }
{
    pz_trace_laws::laws::names_are_unbroken();
    pz_trace_laws::laws::runs_tell_lines();
    pz_trace::laws::lines_stand_apart();
    pz_trace::laws::lines_differ();
    pz_trace::laws::headers_differ();
}

/// What `format` prints for a model that it accepts, whose text is one of bytes, is a text of the same
/// model, but for the places of its parts, and its own layout.
pub fn formats_read_back()
    ensures { FormatsReadBack }
{
    pz_run_formatting::laws::layouts_read_back();
}
