//! What a run of a member is given by its devices, and what it does to them, as definitions.
//!
//! A run weaves readings of the clock, random words and receipts of the link into the events of a history, and takes
//! each: its record is written, the member steps, a request is sent or the clock corrected, and a line printed. The
//! calls of clock and link stand in their order: a request before the receipt of its turn, a correction right behind
//! the reading of its event. Here stands what that means for every part of a run and for each call at which it may end,
//! and how parts add up. Of code there are the types [`Why`] and [`LifeEnd`] alone, which counts; [`laws_of_weaving`] has the
//! laws of the events.
//!
//! It stands on `time_machine` and `sntp_core` for histories and members, on `stamp_keep` and `slot_disk` for marks, on
//! `capture_fmt` for records, on `line_text` for lines and on `edge_traits` and `edge_seen` for devices. The layer
//! above, `member_run`, keeps `Runs` of `specs/Parts.antt` in each of its parts, and `Lives` of `specs/Lives.antt`, the
//! record of a whole run, in its call of one.
//!
//! The definitions, in the order to read them: `specs/Weaving.antt` (which events, and in which order the calls),
//! `ServiceWeaving.antt` (which events, where requests are asked for), `Deeds.antt` (what is done about them), `Devices.antt` (what the devices tell of it, and why a part ends), `Counting.antt` (what is counted),
//! `Parts.antt`, `Closing.antt` (the last lines), `Marks.antt` (when counts are reserved, and what the disk stands for),
//! `Lives.antt` and `Rounds.antt` (what a call for a request answers).
#![tactic(auto)]

mod laws;
mod life_end;

pub use laws::laws_of_weaving;
pub use life_end::{LifeEnd, Why};
