// The tables of the tests.

/// One-qubit kinds 1 cycle, the exchange 6, the others 2.
pub const TIMES: &[u8] =
    b"\x02\x01\x01\x00\x02\x02\x01\x00\x02\x03\x01\x00\x02\x04\x01\x00\x02\x05\x01\x00\x02\x06\x01\x00\x02\x07\x01\x00\x02\x08\x01\x00\x02\x09\x02\x00\x02\x0a\x02\x00\x02\x0b\x02\x00\x02\x0c\x06\x00";

/// Records, after those of `TIMES` if `timed`, and the refusal that they get, if any: its number and its place.
#[derive(Clone, Copy)]
pub struct Case {
    pub wires: u8,
    pub timed: bool,
    pub records: &'static [u8],
    pub refused: Option<(u8, usize)>,
}

pub const CASES: [Case; 50] = [
    // no wire
    Case {
        wires: 0,
        timed: true,
        records: b"",
        refused: Some((7, 0)),
    },
    // one wire
    Case {
        wires: 1,
        timed: true,
        records: b"",
        refused: None,
    },
    // 65 wires
    Case {
        wires: 65,
        timed: true,
        records: b"",
        refused: Some((7, 0)),
    },
    // 255 wires
    Case {
        wires: 255,
        timed: true,
        records: b"",
        refused: Some((7, 0)),
    },
    // 64 wires, no coupling
    Case {
        wires: 64,
        timed: true,
        records: b"",
        refused: Some((10, 1)),
    },
    // a star of 64 wires
    Case {
        wires: 64,
        timed: true,
        records: b"\x01\x00\x01\x00\x01\x00\x02\x00\x01\x00\x03\x00\x01\x00\x04\x00\x01\x00\x05\x00\x01\x00\x06\x00\x01\x00\x07\x00\x01\x00\x08\x00\x01\x00\x09\x00\x01\x00\x0a\x00\x01\x00\x0b\x00\x01\x00\x0c\x00\x01\x00\x0d\x00\x01\x00\x0e\x00\x01\x00\x0f\x00\x01\x00\x10\x00\x01\x00\x11\x00\x01\x00\x12\x00\x01\x00\x13\x00\x01\x00\x14\x00\x01\x00\x15\x00\x01\x00\x16\x00\x01\x00\x17\x00\x01\x00\x18\x00\x01\x00\x19\x00\x01\x00\x1a\x00\x01\x00\x1b\x00\x01\x00\x1c\x00\x01\x00\x1d\x00\x01\x00\x1e\x00\x01\x00\x1f\x00\x01\x00\x20\x00\x01\x00\x21\x00\x01\x00\x22\x00\x01\x00\x23\x00\x01\x00\x24\x00\x01\x00\x25\x00\x01\x00\x26\x00\x01\x00\x27\x00\x01\x00\x28\x00\x01\x00\x29\x00\x01\x00\x2a\x00\x01\x00\x2b\x00\x01\x00\x2c\x00\x01\x00\x2d\x00\x01\x00\x2e\x00\x01\x00\x2f\x00\x01\x00\x30\x00\x01\x00\x31\x00\x01\x00\x32\x00\x01\x00\x33\x00\x01\x00\x34\x00\x01\x00\x35\x00\x01\x00\x36\x00\x01\x00\x37\x00\x01\x00\x38\x00\x01\x00\x39\x00\x01\x00\x3a\x00\x01\x00\x3b\x00\x01\x00\x3c\x00\x01\x00\x3d\x00\x01\x00\x3e\x00\x01\x00\x3f\x00",
        refused: None,
    },
    // 0 bytes
    Case {
        wires: 1,
        timed: false,
        records: b"",
        refused: Some((9, 1)),
    },
    // 1 bytes
    Case {
        wires: 1,
        timed: false,
        records: b"\x02",
        refused: Some((7, 0)),
    },
    // 2 bytes
    Case {
        wires: 1,
        timed: false,
        records: b"\x02\x01",
        refused: Some((7, 0)),
    },
    // 3 bytes
    Case {
        wires: 1,
        timed: false,
        records: b"\x02\x01\x01",
        refused: Some((7, 0)),
    },
    // 4 bytes
    Case {
        wires: 1,
        timed: false,
        records: b"\x02\x01\x01\x00",
        refused: Some((9, 2)),
    },
    // 5 bytes
    Case {
        wires: 1,
        timed: false,
        records: b"\x02\x01\x01\x00\x02",
        refused: Some((7, 0)),
    },
    // nothing at all
    Case {
        wires: 0,
        timed: false,
        records: b"",
        refused: Some((7, 0)),
    },
    // form 0
    Case {
        wires: 2,
        timed: true,
        records: b"\x00\x00\x01\x00",
        refused: Some((8, 12)),
    },
    // form 3
    Case {
        wires: 2,
        timed: true,
        records: b"\x03\x00\x01\x00",
        refused: Some((8, 12)),
    },
    // form 255
    Case {
        wires: 2,
        timed: true,
        records: b"\xff\x00\x01\x00",
        refused: Some((8, 12)),
    },
    // a coupling whose last byte is 1
    Case {
        wires: 2,
        timed: true,
        records: b"\x01\x00\x01\x01",
        refused: Some((8, 12)),
    },
    // a coupling whose last byte is 255
    Case {
        wires: 2,
        timed: true,
        records: b"\x01\x00\x01\xff",
        refused: Some((8, 12)),
    },
    // a wire with itself
    Case {
        wires: 2,
        timed: true,
        records: b"\x01\x01\x01\x00",
        refused: Some((8, 12)),
    },
    // a first wire at N
    Case {
        wires: 2,
        timed: true,
        records: b"\x01\x02\x01\x00",
        refused: Some((8, 12)),
    },
    // a second wire at N
    Case {
        wires: 2,
        timed: true,
        records: b"\x01\x00\x02\x00",
        refused: Some((8, 12)),
    },
    // a first wire past N
    Case {
        wires: 2,
        timed: true,
        records: b"\x01\xc8\x01\x00",
        refused: Some((8, 12)),
    },
    // a second wire past N
    Case {
        wires: 2,
        timed: true,
        records: b"\x01\x00\xff\x00",
        refused: Some((8, 12)),
    },
    // one coupling
    Case {
        wires: 2,
        timed: true,
        records: b"\x01\x00\x01\x00",
        refused: None,
    },
    // one coupling, the higher wire first
    Case {
        wires: 2,
        timed: true,
        records: b"\x01\x01\x00\x00",
        refused: None,
    },
    // a coupling twice
    Case {
        wires: 2,
        timed: true,
        records: b"\x01\x00\x01\x00\x01\x00\x01\x00",
        refused: None,
    },
    // a coupling both ways round
    Case {
        wires: 2,
        timed: true,
        records: b"\x01\x00\x01\x00\x01\x01\x00\x00",
        refused: None,
    },
    // kind 0
    Case {
        wires: 2,
        timed: true,
        records: b"\x01\x00\x01\x00\x02\x00\x01\x00",
        refused: Some((8, 13)),
    },
    // kind 13
    Case {
        wires: 2,
        timed: true,
        records: b"\x01\x00\x01\x00\x02\x0d\x01\x00",
        refused: Some((8, 13)),
    },
    // kind 255
    Case {
        wires: 2,
        timed: true,
        records: b"\x01\x00\x01\x00\x02\xff\x01\x00",
        refused: Some((8, 13)),
    },
    // kind 12 twice
    Case {
        wires: 2,
        timed: true,
        records: b"\x01\x00\x01\x00\x02\x0c\x06\x00",
        refused: Some((8, 13)),
    },
    // kind 1 twice, another duration
    Case {
        wires: 2,
        timed: true,
        records: b"\x01\x00\x01\x00\x02\x01\x09\x00",
        refused: Some((8, 13)),
    },
    // the second record of kind 1 is the bad one
    Case {
        wires: 2,
        timed: false,
        records: b"\x02\x01\x01\x00\x02\x01\x01\x00\x02\x02\x01\x00\x02\x03\x01\x00\x02\x04\x01\x00\x02\x05\x01\x00\x02\x06\x01\x00\x02\x07\x01\x00\x02\x08\x01\x00\x02\x09\x02\x00\x02\x0a\x02\x00\x02\x0b\x02\x00\x02\x0c\x06\x00\x01\x00\x01\x00",
        refused: Some((8, 1)),
    },
    // a duration of 0
    Case {
        wires: 1,
        timed: false,
        records: b"\x02\x01\x00\x00\x02\x02\x01\x00\x02\x03\x01\x00\x02\x04\x01\x00\x02\x05\x01\x00\x02\x06\x01\x00\x02\x07\x01\x00\x02\x08\x01\x00\x02\x09\x02\x00\x02\x0a\x02\x00\x02\x0b\x02\x00\x02\x0c\x06\x00",
        refused: Some((8, 0)),
    },
    // a duration of 1
    Case {
        wires: 1,
        timed: false,
        records: b"\x02\x01\x01\x00\x02\x02\x01\x00\x02\x03\x01\x00\x02\x04\x01\x00\x02\x05\x01\x00\x02\x06\x01\x00\x02\x07\x01\x00\x02\x08\x01\x00\x02\x09\x02\x00\x02\x0a\x02\x00\x02\x0b\x02\x00\x02\x0c\x06\x00",
        refused: None,
    },
    // a duration of 4095
    Case {
        wires: 1,
        timed: false,
        records: b"\x02\x01\xff\x0f\x02\x02\x01\x00\x02\x03\x01\x00\x02\x04\x01\x00\x02\x05\x01\x00\x02\x06\x01\x00\x02\x07\x01\x00\x02\x08\x01\x00\x02\x09\x02\x00\x02\x0a\x02\x00\x02\x0b\x02\x00\x02\x0c\x06\x00",
        refused: None,
    },
    // a duration of 4096
    Case {
        wires: 1,
        timed: false,
        records: b"\x02\x01\x00\x10\x02\x02\x01\x00\x02\x03\x01\x00\x02\x04\x01\x00\x02\x05\x01\x00\x02\x06\x01\x00\x02\x07\x01\x00\x02\x08\x01\x00\x02\x09\x02\x00\x02\x0a\x02\x00\x02\x0b\x02\x00\x02\x0c\x06\x00",
        refused: Some((8, 0)),
    },
    // a duration of 65535
    Case {
        wires: 1,
        timed: false,
        records: b"\x02\x01\xff\xff\x02\x02\x01\x00\x02\x03\x01\x00\x02\x04\x01\x00\x02\x05\x01\x00\x02\x06\x01\x00\x02\x07\x01\x00\x02\x08\x01\x00\x02\x09\x02\x00\x02\x0a\x02\x00\x02\x0b\x02\x00\x02\x0c\x06\x00",
        refused: Some((8, 0)),
    },
    // the last duration is 4096
    Case {
        wires: 1,
        timed: false,
        records: b"\x02\x01\x01\x00\x02\x02\x01\x00\x02\x03\x01\x00\x02\x04\x01\x00\x02\x05\x01\x00\x02\x06\x01\x00\x02\x07\x01\x00\x02\x08\x01\x00\x02\x09\x02\x00\x02\x0a\x02\x00\x02\x0b\x02\x00\x02\x0c\x00\x10",
        refused: Some((8, 11)),
    },
    // the exchange has no duration
    Case {
        wires: 1,
        timed: false,
        records: b"\x02\x01\x01\x00\x02\x02\x01\x00\x02\x03\x01\x00\x02\x04\x01\x00\x02\x05\x01\x00\x02\x06\x01\x00\x02\x07\x01\x00\x02\x08\x01\x00\x02\x09\x02\x00\x02\x0a\x02\x00\x02\x0b\x02\x00",
        refused: Some((9, 12)),
    },
    // kinds 1, 11 and 12 have no duration
    Case {
        wires: 1,
        timed: false,
        records: b"\x02\x02\x01\x00\x02\x03\x01\x00\x02\x04\x01\x00\x02\x05\x01\x00\x02\x06\x01\x00\x02\x07\x01\x00\x02\x08\x01\x00\x02\x09\x02\x00\x02\x0a\x02\x00",
        refused: Some((9, 1)),
    },
    // no duration before parted
    Case {
        wires: 3,
        timed: false,
        records: b"\x01\x00\x01\x00",
        refused: Some((9, 1)),
    },
    // ragged before a bad record
    Case {
        wires: 65,
        timed: false,
        records: b"\x09\x09\x09\x09",
        refused: Some((7, 0)),
    },
    // a bad record before no duration
    Case {
        wires: 3,
        timed: false,
        records: b"\x09\x09\x09\x09",
        refused: Some((8, 0)),
    },
    // the first of two bad records
    Case {
        wires: 3,
        timed: false,
        records: b"\x01\x00\x01\x00\x09\x09\x09\x09\x08\x08\x08\x08",
        refused: Some((8, 1)),
    },
    // three wires, only 0 and 1 coupled
    Case {
        wires: 3,
        timed: true,
        records: b"\x01\x00\x01\x00",
        refused: Some((10, 2)),
    },
    // wire 1 is the lowest out of reach
    Case {
        wires: 3,
        timed: true,
        records: b"\x01\x01\x02\x00",
        refused: Some((10, 1)),
    },
    // wire 1 alone
    Case {
        wires: 4,
        timed: true,
        records: b"\x01\x02\x03\x00\x01\x00\x02\x00",
        refused: Some((10, 1)),
    },
    // three pairs
    Case {
        wires: 6,
        timed: true,
        records: b"\x01\x00\x01\x00\x01\x02\x03\x00\x01\x04\x05\x00",
        refused: Some((10, 2)),
    },
    // a part with the highest wires
    Case {
        wires: 5,
        timed: true,
        records: b"\x01\x00\x04\x00\x01\x04\x03\x00\x01\x03\x02\x00",
        refused: Some((10, 1)),
    },
];

/// A chip by its couplings, with the distance of every two wires and the lowest neighbour one nearer, row by row.
/// In couplings and neighbours wire 0 is `A`, wire 1 is `B`; a distance of 0 is `0`, of 1 is `1`; no neighbour is `.`.
#[derive(Clone, Copy)]
pub struct Map {
    pub wires: u8,
    pub couplings: &'static [u8],
    pub distances: &'static [u8],
    pub nearer: &'static [u8],
}

pub const MAPS: [Map; 7] = [
    // a line of six
    Map {
        wires: 6,
        couplings: b"ABBCCDDEEF",
        distances: b"012345101234210123321012432101543210",
        nearer: b".BBBBBA.CCCCBB.DDDCCC.EEDDDD.FEEEEE.",
    },
    // a ring of seven
    Map {
        wires: 7,
        couplings: b"ABBCCDDEEFFGGA",
        distances: b"0123321101233221012333210123332101223321011233210",
        nearer: b".BBBGGGA.CCCAABB.DDDBCCC.EEEFDDD.FFGGEEE.GAAAFFF.",
    },
    // a star of eight with its middle at 3
    Map {
        wires: 8,
        couplings: b"DADBDCDEDFDGDH",
        distances: b"0221222220212222220122221110111122210222222120222221220222212220",
        nearer: b".DDDDDDDD.DDDDDDDD.DDDDDABC.EFGHDDDD.DDDDDDDD.DDDDDDDD.DDDDDDDD.",
    },
    // a grid of three rows of four
    Map {
        wires: 12,
        couplings: b"ABBCCDEFFGGHIJJKKLAEBFCGDHEIFJGKHL",
        distances: b"012312342345101221233234210132124323321043215432123401231234212310122123321221013212432132104321234512340123323421231012432332122101543243213210",
        nearer: b".BBBEBBBEBBBA.CCAFCCAFCCBB.DBBGDBBGDCCC.CCCHCCCHAAAA.FFFIFFFBBBBE.GGEJGGCCCCFF.HFFKHDDDDGGG.GGGLEEEEEEEE.JJJFFFFFFFFI.KKGGGGGGGGJJ.LHHHHHHHHKKK.",
    },
    // the square
    Map {
        wires: 4,
        couplings: b"ABACBDCD",
        distances: b"0112102112012110",
        nearer: b".BCBA.ADAA.DBBC.",
    },
    // the surface code
    Map {
        wires: 17,
        couplings: b"JBJCKAKBKDKELBLCLELFMAMDNFNIODOEOGOHPEPFPHPIQGQH",
        distances: b"0242244443131533520222244411133335420422444131533352240242243131513322220222231133113422420422331513134442240245333513144422220253333111444422420533513133113335550224444611311333320224224311311333220422241351353354240624453353153144260424333113113422240223333113114224220255533311364444220",
        nearer: b".KKKKKKKKKKKMKKKKK.JKKLKKKJKLKLKKKJJ.JLLLLLJJLJLLLLKKK.KKOOKKKKMKOKOKKLK.LOOPKKLKLOPOLLLLL.LPNLLLLNLPPOOOOOO.OOOOOOOOOQOOOOOPO.POOOOPOPQPNNPPNPP.NPNPNPPPBBCBBBBBB.BBBBBBBABBDEBDDEB.BABDEDBBCBEFEEEBB.BFEEEAAADAADDAAAA.ADADFFFFFFFFIFFFF.FFFDDEDEEGHEDDEDE.EGEEEEEFEHIEEEEFE.HGGGGGHGHHGGGGHGH.",
    },
    // the grid with crossed pairs
    Map {
        wires: 20,
        couplings: b"ABBCCDDEFGGHHIIJKLLMMNNOPQQRRSSTAFBGCHDIEJFKGLHMINJOKPLQMRNSOTBHCGDJEIFLGKHNIMLRMQNTOS",
        distances: b"0123412234223343334410123211232222333333210122112222223333333210132211332224333343210432114322243333122340123411234222342112310123112232223321122210122211232222322113210132112322224321143210432214332222234112340123412234222331122310123211233222222112210122112232222321123210132211433224322143210432113334422334122340123433333222232112310123333332222321122210124333333222322113210143333432224321143210",
        nearer: b".BBBBFBBBBFFBBBFFFBBA.CCCAGHHCGGHHHGGGHHBB.DDGGHDDGGHHDGGGHHCCC.ECCCIJCCIIJCIIIIDDDD.DDIIJDIIIJIIIIIAAGGG.GGGGKLLGGKLLLGBBCCCF.HHCKLHHHKLLHHBBCCIGG.IIGGMNNGMMNNHHDDEHHH.JHMMNJMMMNNDDDDEDDII.DIIIOIIIOOFGGGGFGGGG.LLGGPLLLGFGGGMFGGMMK.MMMKQRRMHHHIILHHIILL.NNQQRNNHHHIIHHHIIHMM.OMMMSTNNJJJNNNJJNNNN.NNSSTKKKKQKKKQQKKQQQ.QQQQLLLMMLLMMMLLMMMP.RRMLLLMMLLMMMLLMMSQQ.SSNNNNNRNNNORRNNORRR.TNNNNNNNNNONNNNONNSS.",
    },
];
