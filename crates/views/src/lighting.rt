// The light that a panel stands in, read from its controller once.
ghost use Rattle.std.specs.Prelude.{◌≡◌};
ghost use Rattle.views.specs.Views.{light_of};

use light::Light;
use st7789::Controller;

#[tactic(auto, unfolding(crate::specs::Views::light_of))]
pub(crate) fn light_of(controller: Controller) -> Light
    ensures { result ≡ light_of controller }
{
    let power = controller.power;
    let registers = controller.chip.registers;
    Light {
        lit: power.powered && !registers.sleeping && registers.display_on,
        plain: registers.inverted == controller.cfg.invon_shows_ram,
        level: power.level,
        scale: power.scale,
    }
}
