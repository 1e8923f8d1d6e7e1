// Products: MEET and MUL from the left.
use crate::worked::Worked;

pub const LINES: [Worked; 13] = [
    // the worked graph
    Worked {
        line: "R()=A(i)*B(i);i",
        commands: 12,
        streams: 13,
        graph: "0100 0101 020000000203 020100010405 03020406 0502030607 0504050608 07000709 0701080A 08090A0B 0A0B0C \
                0B000CFFFFFFFF000000 00",
    },
    Worked {
        line: "R(i)=A(i)*A(i);i",
        commands: 11,
        streams: 12,
        graph: "0100 0101 020000000203 020000010405 03020406 0502030607 0504050608 07000709 0700080A 08090A0B \
                0B010B06FFFFFF010000 00",
    },
    Worked {
        line: "R(i)=A(i)*B(i)*C(i);i",
        commands: 17,
        streams: 19,
        graph: "0100 0101 0102 020000000304 020100010506 020200020708 03030509 0309070A 0503040A0B 0505060A0C 0507080A0D \
                07000B0E 07010C0F 07020D10 080E0F11 08111012 0B01120AFFFFFF010000 00",
    },
    // the graph of the line before: both meet from the left
    Worked {
        line: "R(i)=(A(i)*B(i))*C(i);i",
        commands: 17,
        streams: 19,
        graph: "0100 0101 0102 020000000304 020100010506 020200020708 03030509 0309070A 0503040A0B 0505060A0C 0507080A0D \
                07000B0E 07010C0F 07020D10 080E0F11 08111012 0B01120AFFFFFF010000 00",
    },
    // the bracket is met first
    Worked {
        line: "R(i)=A(i)*(B(i)*C(i));i",
        commands: 17,
        streams: 19,
        graph: "0100 0101 0102 020000000304 020100010506 020200020708 03050709 0303090A 0503040A0B 0505060A0C 0507080A0D \
                07000B0E 07010C0F 07020D10 080F1011 080E1112 0B01120AFFFFFF010000 00",
    },
    Worked {
        line: "R(i,j)=A(i)*B(j);i,j",
        commands: 12,
        streams: 13,
        graph: "0100 0101 020000000203 0502030204 06010205 020100050607 06040608 0506070609 0700080A 0701090B 080A0B0C \
                0B020C0206FFFF010200 00",
    },
    // the loop order decides, and not the order of the accesses
    Worked {
        line: "R(i,j)=A(i)*B(j);j,i",
        commands: 12,
        streams: 13,
        graph: "0100 0101 020100010203 06000204 0502030205 020000040607 0506070608 06050609 0700080A 0701090B 080A0B0C \
                0B020C0206FFFF020100 00",
    },
    // a matrix product, row by row
    Worked {
        line: "R(i,j)=A(i,k)*B(k,j);i,k,j",
        commands: 17,
        streams: 20,
        graph: "0100 0101 020000000203 0502030204 06010205 020001040607 020100050809 0306080A 0506070A0B 0508090A0C \
                0201010C0D0E 060B0D0F 050D0E0D10 07000F11 07011012 08111213 0B0313020A0DFF010300 00",
    },
    // k innermost: SUM
    Worked {
        line: "R(i,j)=A(i,k)*B(j,k);i,j,k",
        commands: 18,
        streams: 21,
        graph: "0100 0101 020000000203 0502030204 06010205 020100050607 06040608 0506070609 020001080A0B 020101090C0D 030A0C0E \
                050A0B0E0F 050C0D0E10 07000F11 07011012 08111213 0A1314 0B02140206FFFF010200 00",
    },
    // k outermost: WRITE adds up
    Worked {
        line: "R(i,j)=A(k,i)*B(k,j);k,i,j",
        commands: 17,
        streams: 20,
        graph: "0100 0101 020000000203 020100010405 03020406 0502030607 0504050608 02000107090A 05090A090B 0608090C \
                0201010C0D0E 060B0D0F 050D0E0D10 07000F11 07011012 08111213 0B031306090DFF020300 00",
    },
    Worked {
        line: "R(i)=A(i,j)*B(j);i,j",
        commands: 15,
        streams: 17,
        graph: "0100 0101 020000000203 0502030204 06010205 020001040607 020100050809 0306080A 0506070A0B 0508090A0C 07000B0D \
                07010C0E 080D0E0F 0A0F10 0B011002FFFFFF010000 00",
    },
    Worked {
        line: "R(j,i)=A(i,j)*B(j)*C(i);i,j",
        commands: 21,
        streams: 24,
        graph: "0100 0101 0102 020000000304 020200020506 03030507 0503040708 06010709 050506070A 020001080B0C 020100090D0E \
                030B0D0F 050B0C0F10 050D0E0F11 060A0F12 07001013 07011114 07021215 08131416 08161517 0B0217070FFFFF020100 00",
    },
    Worked {
        line: "R(i)=A(i,j)*B(j,k)*C(k);i,j,k",
        commands: 27,
        streams: 31,
        graph: "0100 0101 0102 020000000304 0503040305 06010306 06020307 020001050809 020100060A0B 03080A0C 0508090C0D \
                050A0B0C0E 06070C0F 0201010E1011 0202000F1213 03101214 060D1415 0510111416 0512131417 07001518 07011619 \
                0702171A 0818191B 081B1A1C 0A1C1D 0A1D1E 0B011E03FFFFFF010000 00",
    },
];
