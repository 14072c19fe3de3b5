ghost use Rattle.std.specs.Prelude.{◌≡◌, ◌<◌};
ghost use Rattle.fp_model.specs.Form.{form_of, near};

use fp_model::Form;

/// What stands behind an opcode (JVMS SE 21 chapter 6). `wide` is none, since it stands before one.
#[tactic(auto, unfolding(fp_model::specs::Form::form_of))]
pub fn operands_of(op: u8) -> Form
    ensures { result ≡ form_of op }
{
    match op {
        0..=15 | 46..=53 | 79..=131 | 133..=152 | 172..=177 | 190 | 191 | 194 | 195 => Form::Plain,
        16 => Form::Push(1),
        17 => Form::Push(2),
        18 => Form::ShortConstant,
        19 => Form::Constant(1),
        20 => Form::Constant(2),
        21 | 23 | 25 | 54 | 56 | 58 => Form::Local(1),
        22 | 24 | 55 | 57 => Form::Local(2),
        26..=45 => near_local(op - 26),
        59..=78 => near_local(op - 59),
        132 => Form::Increment,
        153..=167 | 198 | 199 => Form::Branch(2),
        168 | 169 | 201 => Form::Subroutine,
        170 => Form::TableSwitch,
        171 => Form::LookupSwitch,
        178..=181 => Form::Refers { tag: 9, or_tag: 9 },
        182 => Form::Refers {
            tag: 10,
            or_tag: 10,
        },
        183 | 184 => Form::Refers {
            tag: 10,
            or_tag: 11,
        },
        185 => Form::InvokeInterface,
        186 => Form::InvokeDynamic,
        187 => Form::New,
        188 => Form::NewArray,
        189 | 192 | 193 => Form::Refers { tag: 7, or_tag: 7 },
        197 => Form::MultiNewArray,
        200 => Form::Branch(4),
        _ => Form::Unknown,
    }
}

/// The form of an opcode that names its local, by its place in a row of four for each type.
fn near_local(place: u8) -> Form
    ensures { result ≡ near place }
{
    let words = if place / 4 == 1 || place / 4 == 3 {
        2
    } else {
        1
    };
    Form::Near {
        local: place % 4,
        words,
    }
}
