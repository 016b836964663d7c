// The check of document 01: a unit is right exactly when the polynomial of degree 36 divides its bits. The division takes a byte at a time
// through a table of 256 remainders, and keeps a 36-bit remainder in a u64, the coefficient of x^35 in bit 0.

#![tactic(auto)]

ghost use Rattle.std.specs.Prelude.{◌≡◌, true, ◌++◌, ◌≤◌, length};
ghost use Rattle.crc.specs.Poly.{remainder as remainder_of};
ghost use Rattle.crc.specs.Unit.{bits, polynomial, IsRight, right as right_of, flit_right as flit_right_of};
ghost use Rattle.crc.specs.Register.{bits_number, table, take_byte, continued as continued_of};
ghost use Rattle.crc.specs.Seal.{with_check, sealed};

// Whether a unit is right: as the test says, and so exactly when the polynomial divides it.
pub fn right(unit: &[u8]) -> bool
    ensures value { result ≡ right_of unit.now }
    ensures right { (result ≡ true → IsRight unit.now) × (IsRight unit.now → result ≡ true) }
{
    continued(0, unit) == 0
}

// Whether a unit is right whose data lies in one place and its closing flit in another.
pub fn right_after(held: &[u8], flit: &[u8]) -> bool
    ensures { result ≡ right_of (held.now ++ flit.now) }
{
    let so_far = continued(0, held);
    continued(so_far, flit) == 0
}

// Whether the flit that starts at a place of a unit or a store is right alone; false where it is not inside.
pub fn flit_right(s: &[u8], at: usize) -> bool
    ensures { result ≡ flit_right_of s.now at }
{
    let Some(rest) = s.get(at..) else {
        return false;
    };
    let Some(flit) = rest.get(..64) else {
        return false;
    };
    right(flit)
}

// Makes a unit right: its last 36 bits become its check. A slice under five bytes has no room for one and stays.
pub fn seal(unit: &mut [u8])
    ensures { unit.new ≡ sealed unit.old }
{
    if unit.len() < 5 {
        return;
    }
    put_check(unit, 0);
    let check = continued(0, unit);
    put_check(unit, check);
}

// The remainder of a unit, or of the first part of one.
pub fn remainder(unit: &[u8]) -> u64
    ensures { result ≡ bits_number (remainder_of polynomial (bits unit.now)) }
{
    continued(0, unit)
}

// The remainder r of the parts before this one, continued over it; it begins at 0.
pub fn continued(r: u64, part: &[u8]) -> u64
    ensures { result ≡ continued_of r part.now }
{
    let mut left = r;
    for &b in part {
        left = step(left, b);
    }
    left
}

// The remainder after one more byte.
fn step(r: u64, b: u8) -> u64
    ensures { result ≡ take_byte r b }
{
    let i = (r & 255) as usize;
    (r >> 8) ^ TABLE[i] ^ ((b as u64) << 28)
}

// Writes a check at a unit's last 36 bits. The byte where it begins keeps its low half, so no `to_le_bytes` lays them down.
fn put_check(unit: &mut [u8], check: u64)
    requires { 5 ≤ length unit.old }
    ensures { unit.new ≡ with_check unit.old check }
{
    let a = unit.len() - 5;
    let b = a + 1;
    let c = b + 1;
    let d = c + 1;
    let e = d + 1;
    let high = ((check & 15) << 4) as u8;
    unit[a] = (unit[a] & 15) | high;
    unit[b] = ((check >> 4) & 255) as u8;
    unit[c] = ((check >> 12) & 255) as u8;
    unit[d] = ((check >> 20) & 255) as u8;
    unit[e] = ((check >> 28) & 255) as u8;
}

// The table, laid down for whoever checks more than one unit.
pub fn laid() -> [u64; 256]
    ensures { result ≡ table }
{
    TABLE
}

// Entry i is what eight places of the division make of i.
static TABLE: [u64; 256] = [
    0,
    9508484401,
    19016968802,
    27309121363,
    38033937604,
    46913298933,
    54618242726,
    62297983895,
    56716540909,
    64461098716,
    40163496335,
    49112261822,
    25475051305,
    33702386200,
    6493930827,
    15933010042,
    29667190207,
    20920307854,
    10824617949,
    3012393708,
    60980113787,
    51607585866,
    44556966681,
    36128861736,
    50950102610,
    42587073379,
    67404772400,
    58101383425,
    12987861654,
    5110562727,
    31866020084,
    23049999813,
    59334380414,
    68285709903,
    41840615708,
    49582625837,
    21649235898,
    31085750923,
    6024787416,
    14254670057,
    3825954963,
    12124980642,
    19485989617,
    28987584448,
    35415958615,
    43088826726,
    52941246005,
    61827496708,
    48198299329,
    38896425968,
    65861600419,
    57497072018,
    16679205381,
    7861669684,
    32469651559,
    24593851734,
    25975723308,
    18169323549,
    10221125454,
    1468402303,
    63732040168,
    55298110681,
    46099999626,
    36733312699,
    30607639705,
    21858906536,
    14179135227,
    6368762826,
    68629581917,
    59258938732,
    49792399935,
    41362411278,
    43298471796,
    34937883205,
    62171501846,
    52865671207,
    12049574832,
    4169801345,
    28509340114,
    19695793379,
    7651909926,
    17157395479,
    24249961284,
    32545111669,
    38971979234,
    47854305491,
    57975168896,
    65651944113,
    55776336587,
    63522254842,
    36808732841,
    45756138904,
    17825304079,
    26051312446,
    1258775661,
    10699182428,
    46988873703,
    37689932502,
    62776059269,
    54408597684,
    9298680611,
    478244370,
    26965274945,
    19092374640,
    33358410762,
    25550586171,
    15723339368,
    6972042073,
    64939303118,
    56506766847,
    49187703468,
    39819624349,
    51951446616,
    60904693609,
    36338647098,
    44078740747,
    20442250908,
    29876816813,
    2936804606,
    11168637391,
    5035102645,
    13331752068,
    22571809751,
    32075779814,
    42796729713,
    50472005696,
    58445377299,
    67329219106,
    61215279410,
    53519907843,
    43717813072,
    34820527713,
    28358270454,
    20081748167,
    12737525652,
    3246965413,
    14833595103,
    5412308974,
    30490056893,
    22278483340,
    50178123291,
    41211564842,
    67706981497,
    59946662216,
    37194722445,
    45605034428,
    54853469935,
    64210236382,
    1912977481,
    9742994808,
    17707979307,
    26470623002,
    24099149664,
    32930800209,
    8339602690,
    16234825779,
    57018680228,
    66306438805,
    39391586758,
    47736691959,
    15303819852,
    7089567613,
    34314790958,
    24896199967,
    48499922568,
    40742282169,
    65090223338,
    56120969691,
    62893357473,
    53989313680,
    46334710723,
    38646081266,
    27888168293,
    18404366420,
    8912652039,
    629387830,
    23494436851,
    31388029634,
    4649340305,
    13482637472,
    58562933559,
    66909668870,
    42142308693,
    51428420708,
    35650608158,
    45001664815,
    52102624892,
    60518630221,
    2517551322,
    11285904875,
    21398364856,
    29222688649,
    40280821163,
    48692951194,
    56062339017,
    65417286392,
    7416797551,
    15245028446,
    25089061645,
    33853490748,
    18597361222,
    27426734967,
    956488740,
    8853989653,
    53930549890,
    63220553651,
    38184749280,
    46527610321,
    66716821524,
    59024219429,
    51101172342,
    42201118535,
    31446678736,
    23167355361,
    13944084146,
    4456326019,
    11747218425,
    2324670152,
    29281466779,
    21071154346,
    44674549565,
    35709284876,
    60325653855,
    52564039790,
    20140410581,
    28031169508,
    3708398775,
    12544530822,
    53327008273,
    61676611360,
    34493331571,
    43776576834,
    40884501816,
    50236753929,
    59753633626,
    68168442475,
    5873609212,
    14640733389,
    22337274782,
    30162826927,
    10070205290,
    1854199387,
    26663504136,
    17246665785,
    45143619502,
    37387698847,
    64151559628,
    55180585213,
    66247628935,
    57345928630,
    47275406053,
    39584434132,
    33123814467,
    23637703026,
    16561907233,
    8280953616,
];
