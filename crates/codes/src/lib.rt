// What a command byte is: its kind, and how many parameters it applies at. All that is known of a byte stands in one table.
#![tactic(auto)]

ghost use Rattle.std.specs.Prelude.{◌≡◌};
ghost use Rattle.codes.specs.Codes.{is, starts_run, has_effect, place_of};
ghost use Rattle.codes.specs.Table.{kind_numbered, decoded};

pub use numbers::table;

mod numbers;

// The kinds, by the names of their commands. The twelve from Porctrl on are stored; the last is that of all other bytes.
#[derive(Clone, Copy, Debug, PartialEq, Eq)]
pub enum Kind {
    Swreset,
    Slpin,
    Slpout,
    Invoff,
    Invon,
    Dispoff,
    Dispon,
    Caset,
    Raset,
    Ramwr,
    Madctl,
    Colmod,
    Ramwrc,
    Ramctrl,
    Porctrl,
    Gctrl,
    Vcoms,
    Lcmctrl,
    Vdvvrhen,
    Vrhs,
    Vdvs,
    Frctrl2,
    Pwctrl1,
    VendorD6,
    Pvgamctrl,
    Nvgamctrl,
    NoEffect,
}

// A command byte and what it is. `need` is how many parameters it applies at, 0 where it applies nothing: the entry's last digit, as
// `decoded` says, so no Option.
#[derive(Clone, Copy, Debug, PartialEq, Eq)]
pub struct Command {
    pub code: u8,
    pub kind: Kind,
    pub need: u8,
}

// The kind of a number of the table, NoEffect for one that no other kind has.
impl From<u16> for Kind {
    ghost from_gives = { λ n k. k ≡ kind_numbered n };

    #[tactic(auto, unfolding(crate::specs::Table::kind_numbered))]
    fn from(number: u16) -> Kind {
        match number {
            1 => Kind::Swreset,
            2 => Kind::Slpin,
            3 => Kind::Slpout,
            4 => Kind::Invoff,
            5 => Kind::Invon,
            6 => Kind::Dispoff,
            7 => Kind::Dispon,
            8 => Kind::Caset,
            9 => Kind::Raset,
            10 => Kind::Ramwr,
            11 => Kind::Madctl,
            12 => Kind::Colmod,
            13 => Kind::Ramwrc,
            14 => Kind::Ramctrl,
            15 => Kind::Porctrl,
            16 => Kind::Gctrl,
            17 => Kind::Vcoms,
            18 => Kind::Lcmctrl,
            19 => Kind::Vdvvrhen,
            20 => Kind::Vrhs,
            21 => Kind::Vdvs,
            22 => Kind::Frctrl2,
            23 => Kind::Pwctrl1,
            24 => Kind::VendorD6,
            25 => Kind::Pvgamctrl,
            26 => Kind::Nvgamctrl,
            _ => Kind::NoEffect,
        }
    }
}

// What a byte is, by the table. No other function asks that of a byte; the boot comparison compares records with the bytes of its rows.
pub fn decode(table: &[u16; 256], c: u8) -> Command
    ensures answer { result ≡ decoded table.now c }
{
    let entry = table[c as usize];
    Command {
        code: c,
        kind: Kind::from(entry / 16),
        need: (entry % 16) as u8,
    }
}

impl Kind {
    // Whether two kinds are the same: `==` under the name that is promised, `is`.
    pub fn is(self, other: Kind) -> bool
        ensures answer { result ≡ is self other }
    {
        self == other
    }

    // Whether the data after it is pixels.
    pub fn starts_run(self) -> bool
        ensures answer { result ≡ starts_run self }
    {
        matches!(self, Kind::Ramwr | Kind::Ramwrc)
    }

    // Whether it does something at once, when it begins.
    pub fn has_effect(self) -> bool
        ensures answer { result ≡ has_effect self }
    {
        matches!(
            self,
            Kind::Swreset
                | Kind::Slpin
                | Kind::Slpout
                | Kind::Invoff
                | Kind::Invon
                | Kind::Dispoff
                | Kind::Dispon
        )
    }
}

impl Command {
    // The place of a stored command, 12 for any other: `place_of` is what is promised of it, so no Option.
    pub fn place(self) -> usize
        ensures answer { result ≡ place_of self.kind }
    {
        match self.kind {
            Kind::Porctrl => 0,
            Kind::Gctrl => 1,
            Kind::Vcoms => 2,
            Kind::Lcmctrl => 3,
            Kind::Vdvvrhen => 4,
            Kind::Vrhs => 5,
            Kind::Vdvs => 6,
            Kind::Frctrl2 => 7,
            Kind::Pwctrl1 => 8,
            Kind::VendorD6 => 9,
            Kind::Pvgamctrl => 10,
            Kind::Nvgamctrl => 11,
            _ => 12,
        }
    }
}
