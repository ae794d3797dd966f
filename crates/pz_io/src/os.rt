// The files and the standard output of the system: the edge to what is trusted. They tell nothing
// of what they hold.
ghost use Rattle.std.specs.Prelude.{◌≡◌, ◌≤◌, ◌<◌, ◌+◌, ◌++◌, [], ◌∷◌, false, length};
ghost use Rattle.pz_io.specs.Outside.{new_files, new_sink, raised, raised_if};
ghost use Rattle.pz_io.specs.Outcomes.{is_open_failed, IfBytes, is_end, is_read_failed, bytes_got, IfTook, is_write_failed};

use crate::answers::{got_of, put_of};
use crate::names::Names;
use crate::outside::{Files, Got, Opened, Put, Sink};
use std::fs::File;
use std::io;
use std::io::{Read, Write};

/// The files of the system. The count of faults rises by one at each call that answers `Failed`,
/// and at no other: at a refused `open`, at each error of a read, and at a read that would pass
/// 2^64 - 1 bytes since the last `open`.
#[derive(Drop)]
pub struct OsFiles {
    rt: HostRuntime,
    file: Option<File>,
    faults: u64,
    opens: u64,
    names: Names,
    handed: u64,
    ended: bool,
    failed: bool,
}

impl OsFiles {
    ghost use Rattle.pz_io.specs.Os.{os_files_state};

    /// The files of the system, none of them open.
    pub fn new(rt: HostRuntime) -> OsFiles
        ensures { os_files_state result ≡ new_files false [] }
    {
        OsFiles {
            rt,
            file: None,
            faults: 0,
            opens: 0,
            names: Names::none(),
            handed: 0,
            ended: false,
            failed: false,
        }
    }
}

impl Files for OsFiles {
    ghost use Rattle.pz_io.specs.Os.{os_files_state};

    ghost state = { os_files_state };

    fn open(&mut self, name: &str) -> Opened
        ensures opens { (os_files_state self.new).opens ≡ raised (os_files_state self.old).opens }
        ensures opened { (os_files_state self.new).opened ≡
            (os_files_state self.old).opened ++ (name.now ∷ []) }
        ensures handed { (os_files_state self.new).handed ≡ 0 }
        ensures ended { (os_files_state self.new).ended ≡ false }
        ensures last { (os_files_state self.new).failed ≡ is_open_failed result }
        ensures faults { (os_files_state self.old).faults ≤ (os_files_state self.new).faults }
        ensures counted { (os_files_state self.new).faults ≡
            raised_if (is_open_failed result) (os_files_state self.old).faults }
    {
        self.file = None;
        self.opens = self.opens.saturating_add(1);
        self.names = self.names.with(name);
        self.handed = 0;
        self.ended = false;
        self.failed = false;
        match File::open(&self.rt, name) {
            Ok(file) => {
                self.file = Some(file);
                Opened::Ready
            }
            Err(_) => {
                self.faults = self.faults.saturating_add(1);
                self.failed = true;
                Opened::Failed
            }
        }
    }

    fn read(&mut self, buf: &mut [u8]) -> Got
        requires { 0 < length buf.old }
        ensures opens { (os_files_state self.new).opens ≡ (os_files_state self.old).opens }
        ensures opened { (os_files_state self.new).opened ≡ (os_files_state self.old).opened }
        ensures handed { (os_files_state self.new).handed ≡
            (os_files_state self.old).handed + bytes_got result }
        ensures ended { (os_files_state self.new).ended ≡ is_end result }
        ensures last { (os_files_state self.new).failed ≡ is_read_failed result }
        ensures count { IfBytes result (λ n. (1 ≤ n) × (n ≤ length buf.new)) }
        ensures faults { (os_files_state self.old).faults ≤ (os_files_state self.new).faults }
        ensures counted { (os_files_state self.new).faults ≡
            raised_if (is_read_failed result) (os_files_state self.old).faults }
    {
        self.ended = false;
        self.failed = false;
        let got = match &mut self.file {
            Some(file) => got_of(file.read(buf), self.handed),
            None => Got::End,
        };
        match got {
            Got::Bytes(n) => self.handed += n as u64,
            Got::End => self.ended = true,
            Got::Failed => {
                self.faults = self.faults.saturating_add(1);
                self.failed = true;
            }
        }
        got
    }
}

/// The standard output. The count of faults rises by one at each `write` that answers `Failed`, and
/// at no other: at each error, an interruption among them, and at a write that takes nothing.
#[derive(Drop)]
pub struct OsSink {
    rt: HostRuntime,
    faults: u64,
    failed: bool,
}

impl OsSink {
    ghost use Rattle.pz_io.specs.Os.{os_sink_state};

    /// The standard output.
    pub fn new(rt: HostRuntime) -> OsSink
        ensures { os_sink_state result ≡ new_sink false }
    {
        OsSink {
            rt,
            faults: 0,
            failed: false,
        }
    }
}

impl Sink for OsSink {
    ghost use Rattle.pz_io.specs.Os.{os_sink_state};

    ghost state = { os_sink_state };

    fn write(&mut self, piece: &[u8]) -> Put
        requires { 0 < length piece.now }
        ensures count { IfTook result (λ n. (1 ≤ n) × (n ≤ length piece.now)) }
        ensures last { (os_sink_state self.new).failed ≡ is_write_failed result }
        ensures faults { (os_sink_state self.old).faults ≤ (os_sink_state self.new).faults }
        ensures counted { (os_sink_state self.new).faults ≡
            raised_if (is_write_failed result) (os_sink_state self.old).faults }
    {
        self.failed = false;
        let put = put_of(io::writer(&self.rt).write(piece));
        if put == Put::Failed {
            self.faults = self.faults.saturating_add(1);
            self.failed = true;
        }
        put
    }
}
