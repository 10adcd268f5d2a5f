// The table of a record's kinds, and the edition's fields: the largest number for each field.
ghost use Rattle.std.specs.Prelude.{◌≡◌};
ghost use Rattle.record.specs.Fields.{editions, kinds};
ghost use Rattle.record.specs.Kinds.{fields_known};

// The largest numbers of a 16-bit and of a 32-bit field.
const MOST16: u32 = 65535;

pub(crate) const MOST32: u32 = 4294967295;

// M and H.
static EDITION_1: [u32; 2] = [MOST16, MOST16];

// The fields of the kinds, from 0 on.
static KINDS: [&[u32]; 12] = [
    &[MOST32], // 0, the end: how many records came before it
    &[MOST16, MOST32], // 1 SETD r,v
    &[MOST16], // 2 NIL r
    &[MOST16, MOST16], // 3 MOVE r,s
    &[MOST16, MOST16], // 4 ADVANCE r,n
    &[MOST16, MOST16, MOST16], // 5 GETM r,n,tag
    &[MOST16, MOST16, MOST16], // 6 LOAD r,s,k
    &[MOST16, MOST16, MOST16], // 7 STORE r,s,k
    &[MOST16, MOST16], // 8 SIZE r,s
    &[MOST16, MOST16], // 9 TAG r,s
    &[MOST16, MOST16, MOST16], // 10 SAME r,s,t
    &[MOST32], // 11, a number of single collector steps
];

// The fields of an edition; there are no editions but 1.
#[tactic(auto, unfolding(crate::specs::Fields::editions))]
pub(crate) fn fields_of_edition(edition: u32) -> Option<&'static [u32]>
    ensures { fields_known result ≡ editions edition }
{
    if edition == 1 {
        return Some(&EDITION_1);
    }
    None
}

// The fields of a kind; there are no kinds above 11.
pub(crate) fn fields_of_kind(kind: u32) -> Option<&'static [u32]>
    ensures { fields_known result ≡ kinds kind }
{
    KINDS.get(kind as usize).copied()
}
