ghost use Rattle.std.specs.Prelude.{◌≡◌, map};
ghost use Rattle.std.specs.List.{list_all};
ghost use Rattle.jv_names.specs.Names.{is_class_name as names_class, is_part_unit as part_unit, is_member_unit as member_unit, is_method_unit as method_unit};

/// What a text is a list of: bytes of ASCII, or UTF-16 units.
pub(crate) trait Letter: Copy {
    ghost use Rattle.std.specs.Prelude.{ℕ};

    ghost unit_of: { Self → ℕ };

    fn unit(self) -> u16
        ensures { result ≡ unit_of self };
}

impl Letter for u8 {
    ghost unit_of = { λ byte. byte };

    fn unit(self) -> u16 {
        u16::from(self)
    }
}

impl Letter for u16 {
    ghost unit_of = { λ unit. unit };

    fn unit(self) -> u16 {
        self
    }
}

/// Whether a unit may stand in a part of a class's name: any but `.`, `;` and `[` (the caller has taken the `/`).
fn is_part_unit(unit: u16) -> bool
    ensures { result ≡ part_unit unit }
{
    unit != u16::from(b'.') && unit != u16::from(b';') && unit != u16::from(b'[')
}

/// Whether each unit may stand in a member's name.
pub(crate) fn are_member_units(units: &[u16]) -> bool
    ensures { result ≡ list_all member_unit units.now }
{
    units
        .iter()
        .all(|unit| is_part_unit(*unit) && *unit != u16::from(b'/'))
}

/// Whether each unit of a member's name may stand in a method's name.
pub(crate) fn are_method_units(units: &[u16]) -> bool
    ensures { result ≡ list_all method_unit units.now }
{
    units.iter().all(|unit| *unit != u16::from(b'<') && *unit != u16::from(b'>'))
}

/// Whether a text is a class's name in internal form: parts that are not empty, with `/` between them.
pub(crate) fn has_class_form<T: Letter>(text: &[T]) -> bool
    ensures { result ≡ names_class (map T.unit_of text.now) }
{
    let mut begun = false;
    for letter in text {
        let unit = letter.unit();
        if unit == u16::from(b'/') {
            if !begun {
                return false;
            }
            begun = false;
        } else {
            if !is_part_unit(unit) {
                return false;
            }
            begun = true;
        }
    }
    begun
}

/// Whether a text, as ASCII bytes, is a class's name in internal form: parts that are not empty, with `/` between them
/// (JVM specification 4.2.1 and 4.2.2).
pub fn is_class_name(text: &[u8]) -> bool
    ensures { result ≡ names_class text.now }
{
    has_class_form(text)
}
