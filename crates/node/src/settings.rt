// The ranges of the settings.
ghost use Rattle.std.specs.Prelude.{◌≡◌};
ghost use Rattle.model.specs.Sound.{in_range};

use model::{Settings, both};

// "four waits below 2^31 ticks, group 0 to 4, send constant 0 to 8, max_selected 1 to 64, max_size 111 to 1169": each line asks more.
pub fn in_range(c: Settings) -> bool
    ensures { result ≡ in_range c }
{
    let interval = c.ping_interval < Settings::WAIT_END;
    let ping = both(interval, c.ping_timeout < Settings::WAIT_END);
    let request = both(ping, c.ping_req_timeout < Settings::WAIT_END);
    let waits = both(request, c.suspect_timeout < Settings::WAIT_END);
    let group = both(waits, c.ping_req_group_size <= Settings::MOST_GROUP);
    let constant = both(group, c.send_constant <= Settings::MOST_CONSTANT);
    let some = both(constant, Settings::LEAST_SELECTED <= c.max_selected);
    let selected = both(some, c.max_selected <= Settings::MOST_SELECTED);
    let least = both(selected, Settings::LEAST_SIZE <= c.max_size);
    both(least, c.max_size <= Settings::GREATEST_SIZE)
}
