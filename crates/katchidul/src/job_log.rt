// A job's log, in a buffer that the host lends.
ghost use Rattle.std.specs.Prelude.{◌≡◌};
ghost use Rattle.joblog.specs.Calls.{read_log_of, append_of, restart_of};

use joblog::calls::{Log, append, read_log, restart};

pub fn katchidul_read_log(log: &[u8], used: usize) -> Log
    ensures { result ≡ read_log_of log.now used }
{
    read_log(log, used)
}

pub fn katchidul_append(log: &mut [u8], used: usize, tag: u32, page: u32, second: &mut [u8]) -> Log
    ensures value { result ≡ (append_of log.old used tag page second.old).answer }
    ensures log_after { log.new ≡ (append_of log.old used tag page second.old).log }
    ensures second_after { second.new ≡ (append_of log.old used tag page second.old).second }
{
    append(log, used, tag, page, second)
}

pub fn katchidul_restart(log: &[u8], used: usize, count: u32, second: &mut [u8]) -> Log
    ensures value { result ≡ (restart_of log.now used count second.old).answer }
    ensures second_after { second.new ≡ (restart_of log.now used count second.old).second }
{
    restart(log, used, count, second)
}
