// What is asked of a record, command by command. Asking reads, and changes nothing.
#![tactic(auto)]

pub mod commands;
pub mod every;
mod maxima;
mod minima;
mod since;
mod verdicts;

// Which minima are not met, in the order of number 16's intervals.
#[derive(Clone, Copy)]
pub struct Shorts {
    pub rcd: bool,
    pub ras: bool,
    pub rc: bool,
    pub rp: bool,
    pub rrd: bool,
    pub rfc: bool,
    pub wr: bool,
    pub mrd: bool,
}
