// A coordinate as it is on the map.
ghost use Rattle.std.specs.Prelude.{◌≡◌};
ghost use Rattle.map_form.specs.Hundredths.{most_latitude, most_longitude};
ghost use Rattle.map_form.specs.Written.{map_latitude_tag, map_longitude_tag, written_of};

use map_form::writing::{Written, write_latitude, write_longitude};

pub fn katchidul_map_latitude(degrees: f64) -> Written
    ensures { result ≡ written_of map_latitude_tag most_latitude degrees }
{
    write_latitude(degrees)
}

pub fn katchidul_map_longitude(degrees: f64) -> Written
    ensures { result ≡ written_of map_longitude_tag most_longitude degrees }
{
    write_longitude(degrees)
}
