//! What is done over a desk, and what has to come of it.

/// A helper knows hosts, and what it knows is allowed. It is one process with one question at a time.
pub static CONF: &str = "external_acl_type v ttl=10 negative_ttl=4 children-max=1 %>rd /bin/h
acl e external v
http_access allow e
";

/// The entry that a desk notes as it begins.
pub static BEGIN: &str = "0 begin 0 => epoch 1";

/// A job that makes each call. What is neither refused nor none is the text of the entry that is noted.
pub static LINES: &str = "0 open 1 10.0.0.1 4000 => ok
0 open 2 10.0.0.2 4000 => ok
0 open 1 10.0.0.1 4000 => refused
0 ask 1 GET http://a.example/ => check 1
0 step 1 => waits 1
0 act => start 1 v
0 started 1 v => proc 1
0 act => send 1 1 - a.example%20-
0 act => none
1 line 1 OK => reply 1 ok
1 step 1 => done
1 take 1 => epoch 1 allowed rule 1
1 ask 1 GET http://a.example/ => check 2
1 step 2 => took v
1 step 2 => done
1 take 2 => epoch 1 allowed rule 1
2 ask 2 GET http://b.example/ => check 3
2 step 3 => waits 2
2 act => send 1 2 - b.example%20-
2 take 3 => refused
3 line 1 what? => bad
3 act => stop 1
3 step 3 => done
3 take 3 => epoch 1 denied fault 1 e BadReply
4 ask 1 GET http://c.example/ => check 4
4 step 4 => waits 3
4 act => start 1 v
4 startfail 1 v => ok
4 startfail 1 v => refused
4 step 4 => done
4 take 4 => epoch 1 denied fault 1 e NoHelper
5 ask 1 GET http://d.example/ => check 5
5 step 5 => waits 4
5 act => start 1 v
5 started 1 v => proc 2
5 act => send 2 4 - d.example%20-
5 died 2 => ok
5 died 2 => refused
5 step 5 => done
5 take 5 => epoch 1 denied fault 1 e Died
5 ask 2 GET http://e.example/ => check 6
5 step 6 => waits 5
5 act => start 1 v
5 started 1 v => proc 3
5 line 3 OK => stray
5 act => stop 3
5 act => start 1 v
6 reconfigure http_access%20allow%20all%0A => epoch 2
6 started 1 v => proc 4
6 act => send 4 5 - e.example%20-
6 line 4 ERR => reply 5 err
6 step 6 => done
6 take 6 => epoch 1 denied default
6 act => stop 4
6 ask 1 GET http://f.example/ => check 7
6 step 7 => done
6 take 7 => epoch 2 allowed rule 1
7 close 1 => ok
7 close 1 => refused
7 close 2 => ok
7 act => none
";
