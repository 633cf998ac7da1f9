// What a host calls from C (added). Each result is a struct by value, as include/katchidul.h declares it, and has a module of its own.
#![tactic(auto)]

pub mod job_log;
pub mod map;
pub mod prayer_at;
pub mod print_queue;
pub mod read_order;
pub mod remaining_at;
pub mod sentence;
pub mod version;
pub mod work_day;
pub mod write_cells;
pub mod write_order;
pub mod write_row;
