// `cosets` reads a job from standard input and prints its answers, or the refusal of its first faulty line.
#![tactic(auto)]

use jobs::reply::reply_to;
use replying::print_reply;

fn main(rt: HostRuntime) -> anyhow::Result<()> {
    print_reply(&rt, reply_to)
}

#[cfg(test)]
mod tests {
    use jobs::reply;
    use std::process::Abort;
    use std::test::Fail;

    // What is printed for a text.
    fn says(rt: &(impl Abort + AllocGlobal), text: &str, out: &str) -> Result<(), Fail> {
        let reply = reply::reply_to(rt.alloc(), text.as_bytes())?;
        assert_eq!(rt; reply.text(), out);
        Ok(())
    }

    #[test]
    fn level_jobs(rt: HostRuntime) -> Result<(), Fail> {
        says(
            &rt,
            "kind=lines\nlevel=2\nmirror=no\nmatrix=1,0,2,1\n",
            "member=yes\n",
        )?;
        says(
            &rt,
            "kind=lines\nlevel=2\nmirror=yes\nmatrix=1,0,2,1\nmatrix=1,0,1,1\n",
            "member=yes\nmember=no\n",
        )?;
        says(
            &rt,
            "kind=vectors\nlevel=3\nmirror=no\nmatrix=-1,0,0,-1\nmatrix=1,1,0,1\n",
            "member=no\nmember=yes\n",
        )?;
        says(
            &rt,
            "kind=matrices\nlevel=1\nmirror=no\nmatrix=2,1,1,1\n",
            "member=yes\n",
        )?;
        says(
            &rt,
            "kind=matrices\nlevel=003\nmirror=no\nmatrix=-0,-1,1,0\nmatrix=1,3,0,1\n",
            "member=no\nmember=yes\n",
        )?;
        says(&rt, "kind=lines\nlevel=200\nmirror=no\n", "")
    }

    #[test]
    fn forms(rt: HostRuntime) -> Result<(), Fail> {
        says(&rt, "", "refused=1,1\n")?;
        says(&rt, "kind=squares\nlevel=2\nmirror=no\n", "refused=1,1\n")?;
        says(&rt, "kind=lines\r\nlevel=2\nmirror=no\n", "refused=1,1\n")?;
        says(&rt, "kind=lines\nlevel=2\n", "refused=1,3\n")?;
        says(
            &rt,
            "kind=lines\nlevel=2\nmirror=perhaps\n",
            "refused=1,3\n",
        )?;
        says(&rt, "kind=lines\nlevel=2\nmirror=no\n\n", "refused=1,4\n")?;
        says(
            &rt,
            "kind=lines\nlevel=2\nmirror=no\nmatrix=1,0,0,1",
            "refused=1,4\n",
        )
    }

    #[test]
    fn numbers(rt: HostRuntime) -> Result<(), Fail> {
        says(&rt, "kind=lines\nlevel=-2\nmirror=no\n", "refused=2,2\n")?;
        says(&rt, "kind=lines\nlevel=\nmirror=no\n", "refused=2,2\n")?;
        says(
            &rt,
            "kind=lines\nlevel=2\nmirror=no\nmatrix=1,0,0\n",
            "refused=2,4\n",
        )?;
        says(
            &rt,
            "kind=lines\nlevel=2\nmirror=no\nmatrix=1,0,0,1,0\n",
            "refused=2,4\n",
        )?;
        says(
            &rt,
            "kind=lines\nlevel=2\nmirror=no\nmatrix=99999999999,0,x,1\n",
            "refused=2,4\n",
        )
    }

    #[test]
    fn ranges(rt: HostRuntime) -> Result<(), Fail> {
        says(&rt, "kind=vectors\nlevel=201\nmirror=no\n", "refused=3,2\n")?;
        says(&rt, "kind=vectors\nlevel=0\nmirror=no\n", "refused=3,2\n")?;
        says(
            &rt,
            "kind=vectors\nlevel=9999999999999999999999999999999999999999\nmirror=no\n",
            "refused=3,2\n",
        )?;
        says(
            &rt,
            "kind=lines\nlevel=2\nmirror=no\nmatrix=1,1000000001,0,1\n",
            "refused=3,4\n",
        )?;
        says(
            &rt,
            "kind=lines\nlevel=2\nmirror=no\nmatrix=1,-1000000000,0,1\n",
            "member=yes\n",
        )?;
        says(
            &rt,
            "kind=lines\nlevel=2\nmirror=no\nmatrix=1,0,0,1\nmatrix=1,0,0,-1\n",
            "refused=6,5\n",
        )
    }
}
