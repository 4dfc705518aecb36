use crate::answers::Checks;
use std::test::Fail;
use test_tables::first_wrong;

// Encryption and decryption by one key cancel, and so does the first place of a pair.
const CIPHER: &str = "protocol CIPHER; sort Name; sort Key;
op a : -> Name; op k : -> Key; op s : Name Fresh -> Msg; op n : Fresh -> Msg;
op e : Key Msg -> Msg; op d : Key Msg -> Msg; op p : Msg Msg -> Msg; op fst : Msg -> Msg;
eq vars K:Key M:Msg : d(K,e(K,M)) = M;
eq vars X:Msg Z:Msg : fst(p(X,Z)) = X;
";

// Strands behind CIPHER: what they send originates, or it doesn't, first in a variant of so many. An aim is
// looked at behind the strands, and whether the theory is convergent before them.
const STRAND_ROWS: &str = " => 0 1 >ok CIPHER strands 0 variants 0~
intruder dec vars K:Key X:Msg : - K, - X, + d(K,X); => 0 1 >ok CIPHER strands 1 variants 2~
intruder dec vars K:Key X:Msg : - K, - X, + d(K,X); strand box fresh r vars A:Name : + e(k,s(A,r)); strand give : + k; => 0 1 >ok CIPHER strands 3 variants 4~
strand give vars A:Name : + A; => 0 1 >ok CIPHER strands 1 variants 1~
strand give vars X:Msg : + X; => 3 1 >refused origination give 1 ?1:Msg~
strand give vars K:Key X:Msg : + d(K,e(k,X)), - X; => 3 1 >refused origination give 1 ?2:Msg~
strand cut vars Y:Msg : - fst(Y), + Y; => 3 1 >refused origination cut 2 ?2:Msg~
strand cut vars Y:Msg : - Y, + fst(Y); => 0 1 >ok CIPHER strands 1 variants 2~
strand own fresh r : + n(r), - n(r), + a; => 0 1 >ok CIPHER strands 1 variants 1~
strand give vars X:Msg : + X; aim got : known d(k,e(k,a)); => 3 1 >refused origination give 1 ?1:Msg~
strand give : + a; aim got : known d(k,e(k,a)); => 3 1 >refused aim got d(k,e(k,a)) 1~
strand give vars X:Msg : + X; eq vars X:Msg : e(k,X) = X; => 3 1 >refused confluence d(k,e(k,?1:Msg)) ?1:Msg d(k,?1:Msg)~
strand six vars {6: K%:Key X%:Msg} : {5:- K%, - X%, + d(K%,X%), }- K5, - X5, + d(K5,X5); => 0 1 >ok CIPHER strands 1 variants 64~";

#[test]
fn strands_that_are_ready_or_are_not(rt: HostRuntime) -> Result<(), Fail> {
    let answers = Checks { head: CIPHER };
    assert_eq!(rt; first_wrong(rt.alloc(), &answers, STRAND_ROWS)?, None);
    Ok(())
}
