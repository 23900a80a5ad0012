// The window: the full one, what a begun command leaves of it, and its corners from a command's parameters.
ghost use Rattle.std.specs.Prelude.{◌≡◌, ◌<◌, min};
ghost use Rattle.chip.specs.Begin.{full_window, window_begun};
ghost use Rattle.chip.specs.Apply.{number_at, window_applied};

use codes::Kind;
use formats::bytewise::joined;
use geometry::Window;
use lists::Params;

pub(crate) fn full_window(madctl: u8) -> Window
    ensures { result ≡ full_window madctl }
{
    Window {
        xs: 0,
        xe: geometry::col_max(madctl),
        ys: 0,
        ye: geometry::row_max(madctl),
    }
}

pub(crate) fn begun_window(kind: Kind, madctl: u8, window: Window) -> Window
    ensures { result ≡ window_begun kind madctl window }
{
    match kind {
        Kind::Swreset => full_window(madctl),
        _ => window,
    }
}

// The corner at a place of the parameters, cut down.
fn corner(params: Params, i: usize, most: u16) -> u16
    requires { i < 13 }
    ensures { result ≡ min (number_at params i) most }
{
    joined(params.bytes[i], params.bytes[i + 1]).min(most)
}

pub(crate) fn applied_window(kind: Kind, params: Params, madctl: u8, window: Window) -> Window
    ensures { result ≡ window_applied kind params madctl window }
{
    match kind {
        Kind::Caset => {
            let most = geometry::col_max(madctl);
            Window {
                xs: corner(params, 0, most),
                xe: corner(params, 2, most),
                ..window
            }
        }
        Kind::Raset => {
            let most = geometry::row_max(madctl);
            Window {
                ys: corner(params, 0, most),
                ye: corner(params, 2, most),
                ..window
            }
        }
        _ => window,
    }
}
