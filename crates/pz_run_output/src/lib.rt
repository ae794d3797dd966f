//! What each job prints and with which status it ends, and the jobs that run no model.
#![tactic(auto)]

mod files;
mod formatting;
pub mod laws;
mod limits;
mod play;
mod printing;
mod refusing;
mod rings;
mod status;
mod texts;

pub use files::{check_file, say_unread};
pub use formatting::format_file;
pub use limits::{MODEL_LIMIT, SCRIPT_LIMIT, TRACE_LIMIT, WATCH_LIMIT};
pub use play::{Play, Telling};
pub use printing::{say, say_made};
pub use pz_env_closing::pz_env_script::{ReadScriptError, Script};
pub use pz_env_closing::pz_run_playing::{
    Finale, Judged, play_menu, play_summary, play_trace, play_under, play_watched,
};
pub use pz_env_closing::{CloseError, close_checked, drive_header};
pub use pz_run_lines::pz_run_reading::{open_model, read_model, read_open_model};
pub use pz_run_lines::{script_refused_line, usage_line, watch_refused_line};
pub use pz_run_replaying::{Replayed, replay};
pub use pz_trace::{Form, form_told, header, limits_of};
pub use refusing::refuse_header;
pub use rings::make_ring;
pub use status::Status;
pub use texts::{check_text, say_refused};
