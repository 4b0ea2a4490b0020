ghost use Rattle.std.specs.Prelude.{◌≡◌};

// Given by begin and taken back by close. It cannot be let go.
pub struct Slip {
    seal: (),
}

impl Slip {
    ghost use Rattle.sheets.specs.Sheets.{the_slip};

    pub(crate) fn given() -> Slip
        ensures { result ≡ the_slip }
    {
        Slip { seal: () }
    }

    pub(crate) fn take_back(self) {
        let Slip { seal: _ } = self;
    }
}
